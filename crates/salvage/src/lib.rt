// What survives of a cut column: its definitions, the laws of what bytes behind it could change, and the answer of the calls.
#![tactic(auto)]

use refusal::Refusal;

// How many readings were kept, how many bytes were written, and the column's first fault, none of a sound column.
#[derive(Clone, Copy, Debug, PartialEq, Eq)]
pub struct Saved {
    pub kept: u64,
    pub written: usize,
    pub fault: Option<Refusal>,
}

// The call's own refusal is an error, the column's fault none.
pub type Salvaged = Result<Saved, Refusal>;
