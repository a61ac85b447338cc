// The boundary for C and Rust: each public function of the library under a name of C's, its answer a struct by value, a slice a pointer
// and a length. Thin: every function calls one of the library and passes its answer on. include/grundavok.h says the same in C.
#![tactic(auto)]

mod answers;
mod columns;
mod cursor_pieces;
mod cursors;
mod edits;
mod edits_to_end;
mod forms;
mod logs;
mod numbers;
mod reasons;
mod salvages;
mod specifications;
mod tables;
mod texts;

// A number that was read and the position behind it; or a refusal. In every answer `number` is 0 where the call was accepted and else the
// refusal's, `place` is the refusal's, and the other values of a refusal are 0.
#[repr(C)]
#[derive(Clone, Copy)]
pub struct NumberU64 {
    pub number: u8,
    pub place: usize,
    pub value: u64,
    pub next: usize,
}

#[repr(C)]
#[derive(Clone, Copy)]
pub struct NumberI64 {
    pub number: u8,
    pub place: usize,
    pub value: i64,
    pub next: usize,
}

#[repr(C)]
#[derive(Clone, Copy)]
pub struct NumberU32 {
    pub number: u8,
    pub place: usize,
    pub value: u32,
    pub next: usize,
}

// How many readings a column has, or how many bytes were written or would be.
#[repr(C)]
#[derive(Clone, Copy)]
pub struct Counted {
    pub number: u8,
    pub place: usize,
    pub count: u64,
}

// What survives of a column: how many readings before its first fault, and that fault, which is no refusal of the call: 0 and 0 of a sound column.
#[repr(C)]
#[derive(Clone, Copy)]
pub struct Survey {
    pub fault: u8,
    pub place: usize,
    pub readings: u64,
}

// What a salvage came to. `number` and `place` are the call's own refusal, as everywhere; `fault` and `fault_place` are the column's.
#[repr(C)]
#[derive(Clone, Copy)]
pub struct Salvaged {
    pub number: u8,
    pub fault: u8,
    pub place: usize,
    pub fault_place: usize,
    pub kept: u64,
    pub written: usize,
}

// An entry of the pen's log: its kind, 1 to 4, its position in the list, the depth where it has one, and the position of the log behind it.
#[repr(C)]
#[derive(Clone, Copy)]
pub struct Entry {
    pub number: u8,
    pub kind: u8,
    pub position: u32,
    pub place: usize,
    pub depth: i64,
    pub next: usize,
}

// What a replay came to: how many readings the final list has, and how many bytes were written.
#[repr(C)]
#[derive(Clone, Copy)]
pub struct Replayed {
    pub number: u8,
    pub place: usize,
    pub readings: u64,
    pub written: usize,
}

// Whether a column is in our form: `ours` is 1, or 0 and `differs` the place of the first byte that differs.
#[repr(C)]
#[derive(Clone, Copy)]
pub struct Form {
    pub number: u8,
    pub ours: u8,
    pub place: usize,
    pub differs: usize,
}

// Why a table or a column was refused. `number` and `place` are the call's own refusal, as everywhere; `fault` and `fault_place` are the table's or the column's, 0 and
// 0 where nothing is wrong. `about` is 0 where there is no reason, 1 for one of the table that names no row, 2 for one of the table's row `which`, and 3 for one of the
// column's run `which`, which begins at `begins` and has the reading `index` at fault. `sign` is 0 where no count was read at `begins`, 1 for the count itself and
// 2 for its negative. `facts` says which facts there are: 1 how many bytes of the number at the place are there (`first`); 2 a name's length and how many bytes are there
// for it (`first`, `second`); 3 the readings before the run and how many its count asks for (`first`, `second`); 4 the sum before and the delta (`sum`, `delta`); 5
// the table's count (`first`); 6 the specification before and the one that falls (`first`, `second`); 7 the specification with bit 3 set (`first`); 8 what the lengths
// add up to, its high and low 64 bits, and how many bytes of data there are (`first`, `second`, `third`). What does not apply is 0 under a `facts`, `sign` or `about`
// that says so.
#[repr(C)]
#[derive(Clone, Copy)]
pub struct Reason {
    pub number: u8,
    pub fault: u8,
    pub about: u8,
    pub sign: u8,
    pub facts: u8,
    pub place: usize,
    pub fault_place: usize,
    pub which: u64,
    pub begins: usize,
    pub count: u64,
    pub index: u64,
    pub first: u64,
    pub second: u64,
    pub third: u64,
    pub sum: i64,
    pub delta: i64,
}

// What comes next in a column that is read a reading at a time: `what` is 1 for a present reading, which has a value, 2 for an absent one and
// 3 for the end of the column. A refusal has 0 there, as everywhere, so it cannot be taken for the end.
#[repr(C)]
#[derive(Clone, Copy)]
pub struct NextU64 {
    pub number: u8,
    pub what: u8,
    pub place: usize,
    pub value: u64,
}

#[repr(C)]
#[derive(Clone, Copy)]
pub struct NextI64 {
    pub number: u8,
    pub what: u8,
    pub place: usize,
    pub value: i64,
}

#[repr(C)]
#[derive(Clone, Copy)]
pub struct NextU8 {
    pub number: u8,
    pub what: u8,
    pub place: usize,
    pub value: u8,
}

// A piece of such a column: what comes next as above, and how many times it stands there at once, one at least; 0 for the end and a refusal.
#[repr(C)]
#[derive(Clone, Copy)]
pub struct PieceU64 {
    pub number: u8,
    pub what: u8,
    pub place: usize,
    pub value: u64,
    pub times: u64,
}

// The readings of a delta column's piece: the first, and by how much each one behind it is larger.
#[repr(C)]
#[derive(Clone, Copy)]
pub struct PieceI64 {
    pub number: u8,
    pub what: u8,
    pub place: usize,
    pub value: i64,
    pub difference: i64,
    pub times: u64,
}

#[repr(C)]
#[derive(Clone, Copy)]
pub struct PieceU8 {
    pub number: u8,
    pub what: u8,
    pub place: usize,
    pub value: u8,
    pub times: u64,
}

#[repr(C)]
#[derive(Clone, Copy)]
pub struct Specification {
    pub number: u8,
    pub place: usize,
    pub spec: u32,
}

// Where a column lies in its block.
#[repr(C)]
#[derive(Clone, Copy)]
pub struct Part {
    pub number: u8,
    pub place: usize,
    pub start: usize,
    pub len: usize,
}

// Which of two blocks shows a column: `block` is 1 for the corrections, 2 for the first scan and 0 where neither has the row. Where it lies there; or the
// refusal of the table of that block.
#[repr(C)]
#[derive(Clone, Copy)]
pub struct Layered {
    pub number: u8,
    pub block: u8,
    pub place: usize,
    pub start: usize,
    pub len: usize,
}

// Where the new column of a new block goes, and how long the block is.
#[repr(C)]
#[derive(Clone, Copy)]
pub struct Frame {
    pub number: u8,
    pub place: usize,
    pub at: usize,
    pub len: usize,
}
