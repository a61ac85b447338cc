// A table whose rows carry how many readings their columns have: opening, counting, and the edits that are lent such a table and give one.
#![tactic(auto)]

ghost use Rattle.std.specs.Prelude.{◌≡◌, ◌-◌, ◌≤◌, ◌<◌, length, take, drop};
ghost use Rattle.encoding.specs.Cases.{answer_of, maybe_of};
ghost use Rattle.raw_column.specs.Rows.{opened, opened_of};
ghost use Rattle.raw_column.specs.Table.{parse};
ghost use Rattle.refusal.specs.Number.{number_of};
ghost use Rattle.counted_table.specs.Counts.{counted_opened, stored_at, stored, fits, lent_tab, count_of, row_count, not_counted, is_counted, counted};

use column_part::locate;
use column_specification::ColumnSpec;
use encoding::Answer;
use raw_column::{Opened, Table, TableAnswer, read_table};
use refusal::{Refusal, Why};

pub mod edits;
mod typed;

// The rows of a block's table, and how many readings the column of each has: `counts` where `known` is not 0. Unused places are 0.
#[repr(C)]
#[derive(Clone, Copy)]
pub struct CountedTable {
    pub table: Table,
    pub counts: [u64; 64],
    pub known: [u8; 64],
}

// Such a table, of which no count is known, and where the data behind it begin; or a refusal's number and place, and a table of no rows.
#[repr(C)]
#[derive(Clone, Copy)]
pub struct CountedOpened {
    pub number: u8,
    pub place: usize,
    pub start: usize,
    pub table: CountedTable,
}

// How many readings a column has, and the table with that stored; or a refusal's number and place, and the table as it was lent.
#[repr(C)]
#[derive(Clone, Copy)]
pub struct CountedColumn {
    pub number: u8,
    pub place: usize,
    pub count: u64,
    pub table: CountedTable,
}

// The table of a block; no count is known.
pub fn open(block: &[u8]) -> CountedOpened
    ensures { result ≡ counted_opened (parse block.now) }
{
    let o = TableAnswer::from(read_table(block));
    let t = o.table;
    let c = CountedTable {
        table: t,
        counts: [0u64; 64],
        known: [0u8; 64],
    };
    CountedOpened {
        number: o.number,
        place: o.place,
        start: o.start,
        table: c,
    }
}

// Are the rows of a lent table those that were read?
fn fits_rows(lent: Table, read: Table) -> bool
    requires { read.rows ≤ 64 }
    ensures { result ≡ fits lent read }
{
    if lent.rows != read.rows {
        return false;
    }
    let n = read.rows;
    let mut i: usize = 0;
    while i < n {
        if lent.specs[i] != read.specs[i] {
            return false;
        }
        if lent.starts[i] != read.starts[i] {
            return false;
        }
        if lent.lens[i] != read.lens[i] {
            return false;
        }
        i += 1;
    }
    true
}

// The table of a block, read beside one that is lent: table faults, then 25.
fn open_lent(block: &[u8], lent: CountedTable) -> Result<Opened, Refusal>
    ensures { opened_of result ≡ opened (lent_tab lent block.now) }
{
    let o = read_table(block)?;
    let l = lent.table;
    let t = o.table;
    if !fits_rows(l, t) {
        return Err(Refusal(Why::OtherTable, 0));
    }
    Ok(o)
}

// The count that a row carries; none beyond the table's places.
fn stored_at(lent: CountedTable, position: usize) -> Option<u64>
    ensures { maybe_of result ≡ stored_at lent position }
{
    if 64 <= position {
        return None;
    }
    if lent.known[position] == 0 {
        return None;
    }
    Some(lent.counts[position])
}

// A table made anew, its counts as lent, with one stored.
fn store(lent: CountedTable, table: Table, position: usize, count: u64) -> CountedTable
    requires { table.rows ≤ 64 }
    ensures { result ≡ stored lent table position count }
{
    let n = table.rows;
    let mut counts = [0u64; 64];
    let mut known = [0u8; 64];
    let mut i: usize = 0;
    while i < n {
        counts[i] = lent.counts[i];
        known[i] = lent.known[i];
        i += 1;
    }
    if position < 64 {
        counts[position] = count;
        known[position] = 1;
    }
    CountedTable {
        table: table,
        counts: counts,
        known: known,
    }
}

// How many readings a column of a served type has, or its first fault.
fn count_of(typ: u8, column: &[u8]) -> Answer
    requires { (0 < typ) × (typ < 6) }
    ensures { answer_of result ≡ count_of typ column.now }
{
    if typ < 3 {
        return rle_decoder::count(column);
    }
    if typ == 3 {
        return delta_decoder::count(column);
    }
    if typ == 4 {
        return boolean_decoder::count(column);
    }
    text_decoder::count(column)
}

// The count that is stored, or else that of the column from `at` up to `till`.
fn count_row(typ: u8, stored: Option<u64>, block: &[u8], at: usize, till: usize) -> Answer
    requires { (at ≤ till) × (till ≤ length block.now) }
    ensures { answer_of result ≡ row_count typ (maybe_of stored) (take (till - at) (drop at block.now)) }
{
    if typ == 0 {
        return Err(Refusal(Why::NotServed, 0));
    }
    if 5 < typ {
        return Err(Refusal(Why::NotServed, 0));
    }
    match stored {
        Some(n) => Ok(n),
        None => count_of(typ, &block[at..till]),
    }
}

// A refusal gives the table back as it was lent.
fn uncounted_answer(lent: CountedTable, refusal: Refusal) -> CountedColumn
    ensures { result ≡ not_counted lent (number_of refusal.0) refusal.1 }
{
    let Refusal(why, place) = refusal;
    CountedColumn {
        number: u8::from(why),
        place: place,
        count: 0,
        table: lent,
    }
}

// A count is stored.
fn counted_answer(lent: CountedTable, table: Table, position: usize, count: u64) -> CountedColumn
    requires { table.rows ≤ 64 }
    ensures { result ≡ is_counted lent table position count }
{
    let t = store(lent, table, position, count);
    CountedColumn {
        number: 0,
        place: 0,
        count: count,
        table: t,
    }
}

// How many readings the column at a position has: the count that its row carries, as it stands, or else by its bytes; and the table with it stored.
pub fn count(block: &[u8], lent: CountedTable, position: usize) -> CountedColumn
    ensures { result ≡ counted lent block.now position }
{
    let o = match open_lent(block, lent) {
        Ok(o) => o,
        Err(refusal) => return uncounted_answer(lent, refusal),
    };
    let p = match locate(block, position) {
        Ok(p) => p,
        Err(refusal) => return uncounted_answer(lent, refusal),
    };
    let typ = ColumnSpec(p.spec).col_type().as_u8();
    match count_row(
        typ,
        stored_at(lent, position),
        block,
        p.start,
        p.start + p.len,
    ) {
        Ok(n) => counted_answer(lent, o.table, position, n),
        Err(refusal) => uncounted_answer(lent, refusal),
    }
}
