// Readings as text, by their kind; names have a file of their own. A signed reading z is kept as z + 2^63.
use crate::kinds::Kind;
use decimal::ReadingError;
use delta_decoder::sums::sum_of;
use std::fmt;

fn yes_no(s: &[u8]) -> Result<u64, ReadingError> {
    match s {
        b"false" | b"0" => Ok(0),
        b"true" | b"1" => Ok(1),
        _ => Err(ReadingError::NoNumber),
    }
}

// The reading that a text stands for in a column of a kind; none where it is absent.
pub fn reading_of(s: &[u8], kind: Kind) -> Result<Option<u64>, ReadingError> {
    match (kind, s) {
        (Kind::YesNo, _) => yes_no(s).map(Some),
        (_, b"-") => Ok(None),
        (Kind::Signed, _) => decimal::signed_of(s).map(Some),
        _ => decimal::unsigned_of(s).map(Some),
    }
}

// A reading that is kept. As text it takes a width, as numbers do.
#[derive(Clone, Copy)]
pub struct Kept {
    pub kind: Kind,
    pub value: u64,
}

impl fmt::Display for Kept {
    fn fmt<W: fmt::Write>(&self, f: &mut fmt::Formatter<W>) -> fmt::Result {
        match self.kind {
            Kind::Signed => fmt::Display::fmt(&sum_of(self.value), f),
            Kind::Unsigned => fmt::Display::fmt(&self.value, f),
            Kind::YesNo => fmt::Display::fmt(&(self.value != 0), f),
            Kind::Text | Kind::Unserved => Ok(()),
        }
    }
}

// How many decimal digits a number has.
pub fn digits(n: u64) -> usize {
    n.checked_ilog10().unwrap_or(0) as usize + 1
}

impl Kept {
    // How many places its text takes.
    pub fn width(self) -> usize {
        match self.kind {
            Kind::Signed => {
                let z = sum_of(self.value);
                digits(z.unsigned_abs()).saturating_add(usize::from(z < 0))
            }
            Kind::Unsigned => digits(self.value),
            Kind::YesNo => if self.value == 0 { 5 } else { 4 },
            Kind::Text | Kind::Unserved => 0,
        }
    }
}
