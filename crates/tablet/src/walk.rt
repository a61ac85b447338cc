// A column walked a reading at a time, by the cursor of its kind. Nothing is kept of what was passed, so a walk has no limit of its own.
use crate::kept::kept;
use crate::kinds::Kind;
use crate::refusals::Refusal;
use boolean_cursor::{BooleanCursor, BooleanStepped};
use delta_cursor::{DeltaCursor, DeltaStepped};
use refusal::Why;
use rle_cursor::{RleCursor, RleStepped};

// A few bytes may announce 4,294,967,295 readings: so many are walked, which takes seconds, and no more.
pub const LONGEST: u64 = 10000000;

// Where a walk stands.
#[derive(Clone, Copy)]
enum Cursor {
    Signed(DeltaCursor),
    Unsigned(RleCursor),
    YesNo(BooleanCursor),
    Unserved,
}

// The next reading as it is kept, none in it where it is absent, or a refusal; none at the end of the column.
pub type Passed = Option<Result<Option<u64>, Refusal>>;

#[derive(Clone, Copy)]
pub struct Walk<'b> {
    part: &'b [u8],
    cursor: Cursor,
}

// How many readings stand before a column's first fault, and that fault. A walk comes so far.
#[derive(Clone, Copy)]
pub struct Surveyed {
    pub readings: u64,
    pub fault: Option<Refusal>,
}

pub fn survey(part: &[u8], kind: Kind) -> Surveyed {
    let found = match kind {
        Kind::Signed => delta_decoder::survey(part),
        Kind::Unsigned => rle_decoder::survey(part),
        Kind::YesNo => boolean_decoder::survey(part),
        Kind::Text => text_decoder::survey(part),
        Kind::Unserved => encoding::Survey {
            readings: 0,
            fault: Some(refusal::Refusal(Why::NotServed, 0)),
        },
    };
    let fault = found.fault.map(Refusal::from);
    Surveyed {
        readings: found.readings,
        fault: if kind == Kind::Text {
            fault.map(|fault| fault.in_names(part))
        } else {
            fault
        },
    }
}

// How many readings a column has, or its first fault.
pub fn count(part: &[u8], kind: Kind) -> Result<u64, Refusal> {
    let found = survey(part, kind);
    match found.fault {
        None => Ok(found.readings),
        Some(fault) => Err(fault),
    }
}

fn signed(s: DeltaStepped) -> (Cursor, Passed) {
    let passed = match s.answer {
        Ok(Some(Some(value))) => Some(Ok(Some(kept(value)))),
        Ok(Some(None)) => Some(Ok(None)),
        Ok(None) => None,
        Err(refusal) => Some(Err(refusal.into())),
    };
    (Cursor::Signed(s.cursor), passed)
}

fn unsigned(s: RleStepped) -> (Cursor, Passed) {
    let passed = match s.answer {
        Ok(Some(reading)) => Some(Ok(reading)),
        Ok(None) => None,
        Err(refusal) => Some(Err(refusal.into())),
    };
    (Cursor::Unsigned(s.cursor), passed)
}

fn yes_no(s: BooleanStepped) -> (Cursor, Passed) {
    let passed = match s.answer {
        Ok(Some(value)) => Some(Ok(Some(u64::from(value)))),
        Ok(None) => None,
        Err(refusal) => Some(Err(refusal.into())),
    };
    (Cursor::YesNo(s.cursor), passed)
}

impl<'b> Walk<'b> {
    // Before the first reading. Names are not walked.
    pub fn begin(part: &'b [u8], kind: Kind) -> Walk<'b> {
        let cursor = match kind {
            Kind::Signed => Cursor::Signed(delta_cursor::new(part)),
            Kind::Unsigned => Cursor::Unsigned(rle_cursor::new(part)),
            Kind::YesNo => Cursor::YesNo(boolean_cursor::new(part)),
            Kind::Text | Kind::Unserved => Cursor::Unserved,
        };
        Walk { part, cursor }
    }

    pub fn next(&mut self) -> Passed {
        let (cursor, passed) = match self.cursor {
            Cursor::Signed(cursor) => signed(delta_cursor::step(self.part, cursor)),
            Cursor::Unsigned(cursor) => unsigned(rle_cursor::step(self.part, cursor)),
            Cursor::YesNo(cursor) => yes_no(boolean_cursor::step(self.part, cursor)),
            Cursor::Unserved => (Cursor::Unserved, Some(Err(Refusal::new(Why::NotServed, 0)))),
        };
        self.cursor = cursor;
        passed
    }
}
