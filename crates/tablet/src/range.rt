// A range of readings, as a command names it by the words 3 and 4: START END. END may be `end`, for all readings from START on.
use crate::pen::{Desk, Said};
use crate::{column, words};
use splice::End;

// The column and the range of its readings.
#[derive(Clone, Copy)]
pub struct Range {
    pub position: usize,
    pub start: usize,
    pub end: End,
}

fn end(word: &[u8], desk: Desk) -> Result<End, Said> {
    match word {
        b"end" => Ok(End::OfList),
        _ => Ok(End::At(column::place(word, "END", desk)?)),
    }
}

// Of both words it is said where they are no places.
pub fn of_line(line: &[u8], position: usize, desk: Desk) -> Result<Range, Said> {
    let start = column::place(words::word(line, 3), "START", desk);
    let end = end(words::word(line, 4), desk);
    Ok(Range {
        position,
        start: start?,
        end: end?,
    })
}

impl Range {
    // Where it ends in a list of so many readings.
    pub fn end_of(self, old: usize) -> usize {
        splice::end_in(self.end, old)
    }

    // Does a list of so many readings have it?
    pub fn is_in(self, n: usize) -> bool {
        let end = self.end_of(n);
        self.start <= end && end <= n
    }
}
