// The table of a block (the crate's storage/columns/raw_column.rs, the uncompressed half): one pass over its bytes.
#![tactic(auto)]

ghost use Rattle.std.specs.Prelude.{◌≡◌, ◌+◌, ◌<◌, ◌≤◌, length, take};
ghost use Rattle.raw_column.specs.Table.{in_order, plain, parse};
ghost use Rattle.raw_column.specs.Rows.{opened, opened_of, empty_table, fault_of, fault_number, Counted, Read};

use column_specification::ColumnSpec;
use leb128::Parsed;
use refusal::{Refusal, Why};

// A table: each row's specification, where its column begins in the data, and its length; unused places are 0. The boundary hands it out as it is.
#[repr(C)]
#[derive(Clone, Copy)]
pub struct Table {
    pub specs: [u32; 64],
    pub starts: [u64; 64],
    pub lens: [u64; 64],
    pub rows: usize,
}

// A table and where the data behind it begin.
#[derive(Clone, Copy)]
pub struct Opened {
    pub start: usize,
    pub table: Table,
}

// The same for C: number and place of a refusal, with a table of no rows; 0 and 0 where there is none.
#[repr(C)]
#[derive(Clone, Copy)]
pub struct TableAnswer {
    pub number: u8,
    pub place: usize,
    pub start: usize,
    pub table: Table,
}

// A row, and the position behind it.
#[derive(Clone, Copy, Debug, PartialEq, Eq)]
pub struct Row {
    pub spec: u32,
    pub len: u64,
    pub next: usize,
}

// How many rows a table has, and where they begin.
fn count_of(block: &[u8]) -> Parsed<usize>
    ensures { Counted block.now result }
{
    let (value, next) = leb128::leb128_u64(block, 0)?;
    if 64 < value {
        return Err(Refusal(Why::TooManyColumns, 0));
    }
    Ok((value as usize, next))
}

// The row at a position of a table.
#[inline(always)]
pub fn row_at(block: &[u8], p: usize) -> Result<Row, Refusal>
    ensures { Read block.now p result }
{
    let (spec, q) = leb128::leb128_u32(block, p)?;
    let (len, next) = leb128::leb128_u64(block, q)?;
    Ok(Row { spec, len, next })
}

fn in_order(specs: &[u32], n: usize) -> bool
    requires { n ≤ length specs.now }
    ensures { result ≡ in_order 0 (take n specs.now) }
{
    let mut last: u32 = 0;
    let mut i: usize = 0;
    while i < n {
        let k = ColumnSpec(specs[i]).normalize();
        if k < last {
            return false;
        }
        last = k;
        i += 1;
    }
    true
}

fn is_plain(specs: &[u32], n: usize) -> bool
    requires { n ≤ length specs.now }
    ensures { result ≡ plain (take n specs.now) }
{
    let mut i: usize = 0;
    while i < n {
        if ColumnSpec(specs[i]).deflate() {
            return false;
        }
        i += 1;
    }
    true
}

// A sum of lengths, kept at a block's size where it would pass that.
fn capped(total: u64, len: u64, size: u64) -> u64
    requires { total ≤ size }
    ensures { (result ≤ size) × (result ≤ total + len) × (result < size → result ≡ total + len) }
{
    if size - total < len {
        return size;
    }
    total + len
}

// Why rows that were read are refused, if they are.
fn fault_of(specs: &[u32], n: usize, total: u64, room: u64) -> Option<Why>
    requires { n ≤ length specs.now }
    ensures { fault_number result ≡ fault_of (take n specs.now) total room }
{
    if !in_order(specs, n) {
        return Some(Why::OutOfOrder);
    }
    if !is_plain(specs, n) {
        return Some(Why::Compressed);
    }
    if room < total {
        return Some(Why::ColumnsTooLong);
    }
    if total < room {
        return Some(Why::ColumnsTooShort);
    }
    None
}

// A table whose places are all unused.
fn empty_table(rows: usize) -> Table
    ensures { result ≡ empty_table rows }
{
    Table {
        specs: [0u32; 64],
        starts: [0u64; 64],
        lens: [0u64; 64],
        rows: rows,
    }
}

// The table of a block. Its rows are read into the table that is answered, so that no array goes from function to function.
pub fn read_table(block: &[u8]) -> Result<Opened, Refusal>
    ensures { opened_of result ≡ opened (parse block.now) }
{
    let (n, first) = count_of(block)?;
    let size = block.len() as u64;
    let mut t = empty_table(n);
    let mut p = first;
    let mut total: u64 = 0;
    let mut i: usize = 0;
    while i < n {
        let row = row_at(block, p)?;
        t.specs[i] = row.spec;
        t.starts[i] = total;
        t.lens[i] = row.len;
        total = capped(total, row.len, size);
        p = row.next;
        i += 1;
    }
    if let Some(why) = fault_of(&t.specs, n, total, size - p as u64) {
        return Err(Refusal(why, 0));
    }
    Ok(Opened { start: p, table: t })
}

impl From<Result<Opened, Refusal>> for TableAnswer {
    ghost from_gives = { λ r answer. answer ≡ opened_of r };

    fn from(r: Result<Opened, Refusal>) -> TableAnswer {
        match r {
            Ok(o) => TableAnswer {
                number: 0,
                place: 0,
                start: o.start,
                table: o.table,
            },
            Err(Refusal(why, place)) => TableAnswer {
                number: u8::from(why),
                place: place,
                start: 0,
                table: empty_table(0),
            },
        }
    }
}
