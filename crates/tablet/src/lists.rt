// Lists of readings as they are given: readings with a comma or a word's end between two, each with a count behind an x or not. Names have no
// count, and a comma between double quotes parts nothing.
ghost use Rattle.std.specs.Prelude.{◌<◌, length};

use crate::kinds::Kind;
use crate::parts::between;
use crate::{names, numbers};
use decimal::{DecimalError, ReadingError};

// What is wrong with a reading.
#[derive(Clone, Copy)]
pub enum Fault {
    NoNumber,
    OutOfRange,
    TooMany,
    NoText,
    TooLong,
}

// The text of a reading that cannot be taken, and what is wrong with it.
#[derive(Clone, Copy)]
pub struct Wrong<'s> {
    pub fault: Fault,
    pub text: &'s [u8],
}

// A reading as it is kept, none where it is absent, so many times.
#[derive(Clone, Copy)]
struct Item {
    value: Option<u64>,
    times: usize,
}

// The length of the reading that a text begins with.
fn reading_len(s: &[u8]) -> usize {
    let mut open = false;
    for (i, b) in s.iter().enumerate() {
        match *b {
            0 => return i,
            b',' if !open => return i,
            b'"' => open = !open,
            _ => {}
        }
    }
    s.len()
}

// The text of the reading that stands first, and the text behind it and what ends it.
fn part(s: &[u8]) -> (&[u8], &[u8])
    ensures { 0 < length s.now → length result.1.now < length s.now }
{
    let n = reading_len(s);
    (
        between(s, 0, n),
        s.get(n.saturating_add(1)..).unwrap_or_default(),
    )
}

impl From<ReadingError> for Fault {
    fn from(error: ReadingError) -> Fault {
        match error {
            ReadingError::NoNumber => Fault::NoNumber,
            ReadingError::OutOfRange => Fault::OutOfRange,
        }
    }
}

// What is wrong with a count.
impl From<DecimalError> for Fault {
    fn from(error: DecimalError) -> Fault {
        match error {
            DecimalError::NoNumber => Fault::NoNumber,
            DecimalError::TooLarge => Fault::TooMany,
        }
    }
}

// READING or READINGxCOUNT. What is wrong with the count is said first.
fn read_item(s: &[u8], kind: Kind) -> Result<Item, Fault> {
    let Some(x) = s.iter().position(|b| *b == b'x') else {
        let value = numbers::reading_of(s, kind)?;
        return Ok(Item { value, times: 1 });
    };
    let times = decimal::decimal_of(between(s, x.saturating_add(1), s.len()))? as usize;
    let value = numbers::reading_of(between(s, 0, x), kind)?;
    Ok(Item { value, times })
}

// A name, put among the names at the index at which it is given: it is not longer than that text.
fn read_name(s: &[u8], names: &mut [u8], at: usize) -> Result<Item, Fault> {
    if matches!(s, b"-") {
        return Ok(Item {
            value: None,
            times: 1,
        });
    }
    if names.len() < at.saturating_add(s.len()) {
        return Err(Fault::TooLong);
    }
    let end = names::put(s, names, at).ok_or(Fault::NoNumber)?;
    if !utf8::is_utf8(between(names, at, end)) {
        return Err(Fault::NoText);
    }
    Ok(Item {
        value: Some(names::kept(at as u64, end as u64)),
        times: 1,
    })
}

// Puts one reading into the slots from n on, where they fit; the slot behind them.
fn repeat(item: Item, values: &mut [u64], present: &mut [u8], n: usize) -> Result<usize, Fault> {
    let end = n.checked_add(item.times).ok_or(Fault::TooMany)?;
    let slots = values.get_mut(n..end).ok_or(Fault::TooMany)?;
    slots.fill(item.value.unwrap_or(0));
    let flags = present.get_mut(n..end).ok_or(Fault::TooMany)?;
    flags.fill(u8::from(item.value.is_some()));
    Ok(end)
}

// Puts the readings of a list into the first slots, and the bytes of names among `names`: how many readings there are.
pub fn fill<'s>(
    s: &'s [u8],
    kind: Kind,
    names: &mut [u8],
    values: &mut [u64],
    present: &mut [u8],
) -> Result<usize, Wrong<'s>> {
    let mut n = 0;
    let mut rest = s;
    while !rest.is_empty() {
        let (text, behind) = part(rest);
        let item = if kind == Kind::Text {
            read_name(text, names, s.len().saturating_sub(rest.len()))
        } else {
            read_item(text, kind)
        };
        match item.and_then(|item| repeat(item, values, present, n)) {
            Ok(next) => n = next,
            Err(fault) => return Err(Wrong { fault, text }),
        }
        rest = behind;
    }
    Ok(n)
}
