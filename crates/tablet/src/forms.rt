// Whether a column is in our form, the one that make and edit write, and in words how many bytes more or fewer it has.
use crate::kinds::Kind;
use crate::pen::Pen;
use crate::{kinds, walk};
use runs::Values;
use std::fmt;

// Does a column read, and is it not in our form?
pub fn is_other(part: &[u8], spec: u32) -> bool {
    matches!(
        column_form::column_form(kinds::number(spec), part),
        Ok(Some(_))
    )
}

fn runs_len(part: &[u8], values: Values) -> usize {
    rewriting::rewritten_len(part, values, u64::MAX, u64::MAX).unwrap_or(0) as usize
}

// How many bytes our form takes for what a sound column reads as.
fn our_len(part: &[u8], kind: Kind) -> usize {
    match kind {
        Kind::Signed => runs_len(part, Values::Differences),
        Kind::Unsigned => runs_len(part, Values::Words),
        Kind::Text => runs_len(part, Values::Names),
        Kind::YesNo => rewriting::turns::rewritten_turns_len(part, u64::MAX).unwrap_or(0) as usize,
        Kind::Unserved => 0,
    }
}

// Has a sound column readings, and none that is present? Our form writes nothing for those.
pub fn is_absent(part: &[u8], kind: Kind) -> bool {
    our_len(part, kind) == 0 && walk::count(part, kind).is_ok_and(|n| 0 < n)
}

// So many bytes, in words.
#[derive(Clone, Copy)]
pub struct Bytes(pub usize);

impl fmt::Display for Bytes {
    fn fmt<W: fmt::Write>(&self, f: &mut fmt::Formatter<W>) -> fmt::Result {
        match self.0 {
            1 => f.write_str("1 byte"),
            n => write!(f, "{n} bytes"),
        }
    }
}

// Of a column that is not in our form: how much more or less room it takes.
pub fn say(pen: &mut Pen<'_>, part: &[u8], kind: Kind) {
    write!(pen, "not our form: ");
    if is_absent(part, kind) {
        return write!(pen, "absent readings alone, for which ours has no bytes");
    }
    let ours = our_len(part, kind);
    let len = part.len();
    if ours < len {
        write!(pen, "{} more than ours", Bytes(len - ours));
    } else if len < ours {
        write!(pen, "{} fewer than ours", Bytes(ours - len));
    } else {
        write!(pen, "as long as ours");
    }
}
