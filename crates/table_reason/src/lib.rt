// Why the table of a block was refused: which row, and the facts that make the refusal true.
#![tactic(auto)]

ghost use Rattle.std.specs.Prelude.{◌≡◌, ◌+◌, ◌*◌, ◌^◌, ◌≤◌, length, take};
ghost use Rattle.refusal.specs.Number.{number_of};
ghost use Rattle.raw_column.specs.Table.{sum, rows_at};
ghost use Rattle.table_reason.specs.TableReason.{because, rows_read, first_fall, first_compressed, unread, lengths_reason, judged_reason, rows_reason, table_reason};
ghost use Rattle.table_reason.specs.Cases.{row_of, facts_of, told_of};
ghost use Rattle.table_reason.specs.Rows.{WasRead, first_of};

use column_specification::ColumnSpec;
use raw_column::row_at;
use refusal::{Refusal, Why};

// The facts that make a refusal true: how many bytes of the number at the place are there; for 11 the count; for 12 the specification before and
// the one that falls; for 13 the specification; for 14 and 15 what the lengths add up to, its high and its low 64 bits, and how many bytes of data
// there are.
#[derive(Clone, Copy, Debug, PartialEq, Eq)]
pub enum TableFacts {
    Bytes(u64),
    Columns(u64),
    Falls(u32, u32),
    Compressed(u32),
    Lengths(u64, u64, u64),
}

// A table's fault, the row at fault where one is named, and the facts.
#[derive(Clone, Copy, Debug, PartialEq, Eq)]
pub struct TableReason {
    pub refusal: Refusal,
    pub row: Option<u64>,
    pub facts: TableFacts,
}

// Rows as they were read, and the position behind them.
#[derive(Clone, Copy)]
struct Rows {
    specs: [u32; 64],
    lens: [u64; 64],
    next: usize,
}

// A sum that can pass 2^64.
#[derive(Clone, Copy, Debug, PartialEq, Eq)]
struct Sum {
    high: u64,
    low: u64,
}

// So many rows from a position on; or the refusal of one of them, and which one.
fn read_rows(block: &[u8], at: usize, n: usize) -> Result<Rows, (Refusal, usize)>
    requires { n ≤ 64 }
    ensures { WasRead block.now at n result }
{
    let mut specs = [0u32; 64];
    let mut lens = [0u64; 64];
    let mut p = at;
    for i in 0..n {
        let row = match row_at(block, p) {
            Ok(row) => row,
            Err(refusal) => return Err((refusal, i)),
        };
        specs[i] = row.spec;
        lens[i] = row.len;
        p = row.next;
    }
    Ok(Rows {
        specs,
        lens,
        next: p,
    })
}

// The first row whose key is below that of the row before it, if there is one.
fn first_fall(specs: &[u32]) -> Option<usize>
    ensures { result ≡ first_of (first_fall 0 specs.now) (length specs.now) }
{
    let mut last: u32 = 0;
    for (i, spec) in specs.iter().enumerate() {
        let k = ColumnSpec(*spec).normalize();
        if k < last {
            return Some(i);
        }
        last = k;
    }
    None
}

// The first row with bit 3 set, if there is one.
fn first_compressed(specs: &[u32]) -> Option<usize>
    ensures { result ≡ first_of (first_compressed specs.now) (length specs.now) }
{
    specs.iter().position(|spec| ColumnSpec(*spec).deflate())
}

fn sum_of(lens: &[u64]) -> Sum
    requires { length lens.now ≤ 64 }
    ensures { result.high * 2 ^ 64 + result.low ≡ sum lens.now }
{
    let mut high: u64 = 0;
    let mut low: u64 = 0;
    for l in lens {
        let sum = low.wrapping_add(*l);
        if sum < low {
            high += 1;
        }
        low = sum;
    }
    Sum { high, low }
}

// A fault of the table as a whole, whose place is 0.
fn told(why: Why, row: Option<u64>, facts: TableFacts) -> Option<TableReason>
    ensures { told_of result ≡ because (number_of why) 0 (row_of row) (facts_of facts) }
{
    Some(TableReason {
        refusal: Refusal(why, 0),
        row,
        facts,
    })
}

// Of a number that does not read.
fn told_unread(block: &[u8], refusal: Refusal, row: Option<u64>) -> Option<TableReason>
    ensures { told_of result ≡ unread block.now (number_of refusal.0) refusal.1 (row_of row) }
{
    let facts = TableFacts::Bytes(reason::number_bytes(block, refusal.1));
    Some(TableReason {
        refusal,
        row,
        facts,
    })
}

// 14 and 15, of lengths and the bytes of data behind the rows.
fn told_lengths(lens: &[u64], room: u64) -> Option<TableReason>
    requires { length lens.now ≤ 64 }
    ensures { told_of result ≡ lengths_reason lens.now room }
{
    let s = sum_of(lens);
    let facts = TableFacts::Lengths(s.high, s.low, room);
    if 0 < s.high {
        return told(Why::ColumnsTooLong, None, facts);
    }
    if room < s.low {
        return told(Why::ColumnsTooLong, None, facts);
    }
    if s.low < room {
        return told(Why::ColumnsTooShort, None, facts);
    }
    None
}

// 12, 13, 14 and 15, of rows that were read.
fn told_rows(rows: Rows, n: usize, size: usize) -> Option<TableReason>
    requires { (n ≤ 64) × (rows.next ≤ size) }
    ensures { told_of result ≡ judged_reason size (take n rows.specs) (take n rows.lens) rows.next }
{
    let specs = &rows.specs[..n];
    if let Some(i) = first_fall(specs) {
        let before = i - 1;
        let facts = TableFacts::Falls(specs[before], specs[i]);
        return told(Why::OutOfOrder, Some(i as u64), facts);
    }
    if let Some(j) = first_compressed(specs) {
        let facts = TableFacts::Compressed(specs[j]);
        return told(Why::Compressed, Some(j as u64), facts);
    }
    told_lengths(&rows.lens[..n], (size - rows.next) as u64)
}

// Of so many rows from a position on.
fn told_table(block: &[u8], at: usize, n: usize) -> Option<TableReason>
    requires { (n ≤ 64) × (at ≤ length block.now) }
    ensures { told_of result ≡ rows_reason block.now (rows_read n block.now at) (rows_at n block.now at) }
{
    match read_rows(block, at, n) {
        Ok(rows) => told_rows(rows, n, block.len()),
        Err((refusal, row)) => told_unread(block, refusal, Some(row as u64)),
    }
}

// Why the table of a block was refused; none of a sound one.
pub fn table_reason(block: &[u8]) -> Option<TableReason>
    ensures { told_of result ≡ table_reason block.now }
{
    match leb128::leb128_u64(block, 0) {
        Err(refusal) => told_unread(block, refusal, None),
        Ok((value, next)) => {
            if 64 < value {
                return told(Why::TooManyColumns, None, TableFacts::Columns(value));
            }
            told_table(block, next, value as usize)
        }
    }
}
