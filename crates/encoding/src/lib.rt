// What all column encodings share: their definitions and laws, the limit, and the answers of the code.
#![tactic(auto)]

use refusal::Refusal;

pub const LIMIT: u64 = 4294967295;

// A number that counts what was done.
pub type Answer = Result<u64, Refusal>;

// What survives of a column: how many readings stand before the first faulty one, and that fault, none of a sound column.
#[derive(Clone, Copy, Debug, PartialEq, Eq)]
pub struct Survey {
    pub readings: u64,
    pub fault: Option<Refusal>,
}

// How a run begins: so many times the value at a position; so many literal values from a position on; so many absent readings, with the
// position behind them.
#[derive(Clone, Copy, Debug, PartialEq, Eq)]
pub enum Head {
    Repeat(u64, usize),
    Literal(u64, usize),
    Absent(u64, usize),
}

// A stretch of a given list that starts at a known index, by its kind and the index behind it.
#[derive(Clone, Copy)]
pub enum StretchEnd {
    Absent(usize),
    Repeat(usize),
    Literal(usize),
}

// So many bytes; none where they are more than a u64 counts.
pub type Size = Option<u64>;
