// The rows of a table whose numbers read, and what is there of each column. Lengths that add up to more than the data, or to less, are refused with 14 or
// 15; the rows are there all the same.
use crate::parts::between;

// A row of a table, and the position behind it.
#[derive(Clone, Copy)]
struct Row {
    spec: u32,
    len: u64,
    next: usize,
}

fn row_len(block: &[u8], spec: u32, at: usize) -> Row {
    match leb128::leb128_u64(block, at) {
        Ok((len, next)) => Row { spec, len, next },
        Err(refusal) => Row {
            spec,
            len: 0,
            next: refusal.1,
        },
    }
}

fn row_at(block: &[u8], at: usize) -> Row {
    match leb128::leb128_u32(block, at) {
        Ok((spec, next)) => row_len(block, spec, next),
        Err(refusal) => Row {
            spec: 0,
            len: 0,
            next: refusal.1,
        },
    }
}

// How many rows the table has, and where they begin.
#[derive(Clone, Copy)]
struct Rows {
    count: u64,
    at: usize,
}

fn rows_of(block: &[u8]) -> Rows {
    match leb128::leb128_u64(block, 0) {
        Ok((count, at)) => Rows { count, at },
        Err(refusal) => Rows {
            count: 0,
            at: refusal.1,
        },
    }
}

pub fn count(block: &[u8]) -> usize {
    rows_of(block).count as usize
}

// Where the data begin.
fn data_at(block: &[u8], rows: Rows) -> usize {
    (0..rows.count).fold(rows.at, |at, _| row_at(block, at).next)
}

// A column as its row has it, by its specification and its length, where it begins in the block, and what is there of it.
#[derive(Clone, Copy)]
pub struct Piece<'b> {
    pub spec: u32,
    pub len: u64,
    pub start: usize,
    pub part: &'b [u8],
}

// The column at a position. Behind the last one it begins where all of them end.
pub fn piece_at(block: &[u8], position: usize) -> Piece<'_> {
    let rows = rows_of(block);
    let mut at = rows.at;
    let mut start = data_at(block, rows);
    for _ in 0..position {
        let row = row_at(block, at);
        start = start.saturating_add(row.len as usize);
        at = row.next;
    }
    let row = row_at(block, at);
    let end = start.saturating_add(row.len as usize).min(block.len());
    start = start.min(block.len());
    Piece {
        spec: row.spec,
        len: row.len,
        start,
        part: between(block, start, end),
    }
}

impl Piece<'_> {
    // How many of its bytes are there.
    pub fn had(self) -> u64 {
        self.part.len() as u64
    }

    pub fn is_whole(self) -> bool {
        self.had() == self.len
    }
}
