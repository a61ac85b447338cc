// Readings that are given as text, and what is said of those that are none.
use crate::kinds::Kind;
use crate::lists;
use crate::lists::{Fault, Wrong};
use crate::parts::between;
use crate::pen::{Desk, Said};

// Readings as they are kept, which of them are present, and the bytes in which names stand.
#[derive(Clone, Copy)]
pub struct Given<'r> {
    pub names: &'r [u8],
    pub values: &'r [u64],
    pub present: &'r [u8],
}

// What a fault in a column of a kind is.
fn text_of(fault: Fault, kind: Kind) -> &'static str {
    match (fault, kind) {
        (Fault::TooMany, _) => "makes more than the 32,768 readings that this tool takes",
        (Fault::NoText, _) => "is no name: its bytes are not UTF-8 (refusal 20)",
        (Fault::TooLong, _) => "reaches past the 131,072 bytes in which a list of names is given",
        (_, Kind::Text) => {
            "is no name: an empty one stands in double quotes; in a name a double quote is written twice, and a backslash as \\x5c"
        }
        (_, Kind::YesNo) => "is no reading of a boolean column: true, false, 1 or 0",
        (Fault::NoNumber, _) => "is no reading: a whole number, or - for an absent one",
        (_, Kind::Signed) => { "is out of range: from -9223372036854775808 to 9223372036854775807" }
        _ => "is out of range: from 0 to 18446744073709551615",
    }
}

fn say_wrong(wrong: Wrong<'_>, kind: Kind, desk: Desk) -> Said {
    let mut notes = desk.notes();
    write!(notes, "tablet: \"");
    notes.bytes(wrong.text);
    writeln!(notes, "\" {}", text_of(wrong.fault, kind));
    Said
}

// Puts the readings of a text into the first slots, and names among `names`. What cannot be taken is said.
pub fn readings<'r>(
    text: &[u8],
    kind: Kind,
    names: &'r mut [u8],
    values: &'r mut [u64],
    present: &'r mut [u8],
    desk: Desk,
) -> Result<Given<'r>, Said> {
    match lists::fill(text, kind, names, values, present) {
        Ok(n) => Ok(Given {
            names,
            values: between(values, 0, n),
            present: between(present, 0, n),
        }),
        Err(wrong) => Err(say_wrong(wrong, kind, desk)),
    }
}
