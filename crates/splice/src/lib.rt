// What the edits share: the checks that come before anything is changed, in 01's order, and the answer. All but the count of a column's
// readings is the same for every kind of column.
#![tactic(auto)]

ghost use Rattle.std.specs.Prelude.{◌≡◌, ◌+◌, ◌≤◌, false, leb, length, take};
ghost use Rattle.encoding.specs.Cases.{answer_of};
ghost use Rattle.encoding.specs.Limit.{limit};
ghost use Rattle.splice.specs.Edit.{end_in, below, serves, given_optional, given_text, readings_in, block_answer, spliced_of};
ghost use Rattle.splice.specs.Steps.{row_of, row_for, count_as, result_judged, column_planned, plan_of, plan_for};

use column_specification::ColumnSpec;
use encoding::{Answer, LIMIT};
use raw_column::{Table, read_table};
use refusal::{Refusal, Why};

mod lent;

// The new block's table and length, and how many readings its new column has.
#[derive(Clone, Copy)]
pub struct Spliced {
    pub len: usize,
    pub readings: usize,
    pub table: Table,
}

// The kinds of column that edits serve.
#[derive(Clone, Copy)]
pub enum ColumnKind {
    Integer,
    Delta,
    Boolean,
    Text,
}

// Where a range of readings ends: before the reading at an index, or where the list does.
#[derive(Clone, Copy)]
pub enum End {
    At(usize),
    OfList,
}

// What is known of an edit that is ready: where its column begins and ends in the block, and how long the old list is and the new one.
#[derive(Clone, Copy)]
pub struct Found {
    pub at: usize,
    pub till: usize,
    pub old: usize,
    pub len: usize,
}

// An edit that no check stops before the slots are filled.
pub type Planned = Result<Found, Refusal>;

// Is the specification's type one of the kind?
fn is_served(kind: ColumnKind, spec: u32) -> bool
    ensures { result ≡ serves kind spec }
{
    let t = ColumnSpec(spec).col_type().as_u8();
    match kind {
        ColumnKind::Integer => t == 1 || t == 2,
        ColumnKind::Delta => t == 3,
        ColumnKind::Boolean => t == 4,
        ColumnKind::Text => t == 5,
    }
}

// Does a range end below its start, whatever the list?
fn is_below(end: End, start: usize) -> bool
    ensures { result ≡ below start end }
{
    match end {
        End::At(e) => e < start,
        End::OfList => false,
    }
}

// Where a row's column begins and ends in its block: table faults, 16, 17, and 18 for an end below its start.
fn row_at(
    block: &[u8],
    position: usize,
    kind: ColumnKind,
    start: usize,
    end: End,
) -> Result<(usize, usize), Refusal>
    ensures { row_of result ≡ row_for kind block.now position start end }
{
    let p = column_part::locate(block, position)?;
    if !is_served(kind, p.spec) {
        return Err(Refusal(Why::NotServed, 0));
    }
    if is_below(end, start) {
        return Err(Refusal(Why::BadRange, 0));
    }
    Ok((p.start, p.start + p.len))
}

// 8: lengths first, then the first bad presence byte. How many readings there may be is judged of the result alone.
fn judge_new(values: usize, present: usize, new: usize, new_present: &[u8]) -> Answer
    ensures { answer_of result ≡ given_optional values present new new_present.now }
{
    if values != present {
        return Err(Refusal(Why::BadList, 0));
    }
    match given_list::judge_list(new, new_present) {
        Ok(_) => Ok(0),
        Err(Refusal(why, place)) => match why {
            Why::TooMany => Ok(0),
            _ => Err(Refusal(why, place)),
        },
    }
}

// The same of names: three slices of slots, then the list, in which 20 stands directly after 8.
fn judge_names(
    starts: usize,
    lens: usize,
    present: usize,
    bytes: &[u8],
    new_starts: &[u64],
    new_lens: &[u64],
    new_present: &[u8],
) -> Answer
    ensures { answer_of result ≡ given_text starts lens present bytes.now new_starts.now new_lens.now new_present.now }
{
    if starts != lens {
        return Err(Refusal(Why::BadList, 0));
    }
    if lens != present {
        return Err(Refusal(Why::BadList, 0));
    }
    given_names::check_names(bytes, new_starts, new_lens, new_present)
}

// How many readings the column has, read as its kind is, or its first fault.
fn count_as(kind: ColumnKind, column: &[u8]) -> Answer
    ensures { answer_of result ≡ count_as kind column.now }
{
    match kind {
        ColumnKind::Integer => rle_decoder::count(column),
        ColumnKind::Delta => delta_decoder::count(column),
        ColumnKind::Boolean => boolean_decoder::count(column),
        ColumnKind::Text => text_decoder::count(column),
    }
}

// Where the range ends in a list of so many readings.
pub fn end_in(end: End, old: usize) -> usize
    ensures { result ≡ end_in end old }
{
    match end {
        End::At(e) => e,
        End::OfList => old,
    }
}

// May a list have so many readings and so many more?
fn may_have(kept: usize, new: usize) -> bool
    ensures { result ≡ leb (kept + new) limit }
{
    let most = LIMIT as usize;
    if most < kept {
        return false;
    }
    new <= most - kept
}

// 18 for a start or an end beyond the list, 5 for the result, 9; or the new list's length.
fn judge_result(old: usize, start: usize, end: End, new: usize, slots: usize) -> Answer
    requires { below start end ≡ false }
    ensures { answer_of result ≡ result_judged old start end new slots }
{
    if old < start {
        return Err(Refusal(Why::BadRange, 0));
    }
    let e = end_in(end, old);
    if old < e {
        return Err(Refusal(Why::BadRange, 0));
    }
    let kept = start + (old - e);
    if !may_have(kept, new) {
        return Err(Refusal(Why::TooMany, 0));
    }
    let len = kept + new;
    if slots < old {
        return Err(Refusal(Why::TooFewSlots, 0));
    }
    if slots < len {
        return Err(Refusal(Why::TooFewSlots, 0));
    }
    Ok(len as u64)
}

// Column faults and what follows them, of the column from `at` up to `till`.
fn plan_column(
    block: &[u8],
    at: usize,
    till: usize,
    kind: ColumnKind,
    start: usize,
    end: End,
    new: usize,
    slots: usize,
) -> Planned
    requires { (at ≤ till) × (till ≤ length block.now) × (below start end ≡ false) }
    ensures { plan_of result ≡ column_planned kind block.now at till start end new slots }
{
    let old = count_as(kind, &block[at..till])? as usize;
    let len = judge_result(old, start, end, new, slots)? as usize;
    Ok(Found { at, till, old, len })
}

// Everything that can stop an edit before a slot is filled.
pub fn plan(
    block: &[u8],
    position: usize,
    kind: ColumnKind,
    start: usize,
    end: End,
    new: usize,
    new_present: &[u8],
    values: usize,
    present: usize,
) -> Planned
    ensures { plan_of result ≡ plan_for kind block.now position start end (given_optional values present new new_present.now) new values }
{
    let (at, till) = row_at(block, position, kind, start, end)?;
    judge_new(values, present, new, new_present)?;
    plan_column(block, at, till, kind, start, end, new, values)
}

// The same of an edit of names.
pub fn plan_text(
    block: &[u8],
    position: usize,
    start: usize,
    end: End,
    bytes: &[u8],
    new_starts: &[u64],
    new_lens: &[u64],
    new_present: &[u8],
    starts: usize,
    lens: usize,
    present: usize,
) -> Planned
    ensures { plan_of result ≡ plan_for ColumnKind.Text block.now position start end
        (given_text starts lens present bytes.now new_starts.now new_lens.now new_present.now)
        (length new_starts.now) starts }
{
    let (at, till) = row_at(block, position, ColumnKind::Text, start, end)?;
    judge_names(
        starts,
        lens,
        present,
        bytes,
        new_starts,
        new_lens,
        new_present,
    )?;
    plan_column(
        block,
        at,
        till,
        ColumnKind::Text,
        start,
        end,
        new_starts.len(),
        starts,
    )
}

// How many readings a column of so many bytes has that was written for a list of so many: none where nothing was written.
fn readings_in(size: usize, listed: usize) -> usize
    ensures { result ≡ readings_in size listed }
{
    if size == 0 {
        return 0;
    }
    listed
}

// The answer for a block of `len` bytes at the front of `out`, whose new column has `size` bytes, written for a list of so many readings: its table
// and length, or the table's own refusal.
pub fn block_answer(out: &[u8], len: usize, size: usize, listed: usize) -> Result<Spliced, Refusal>
    ensures { spliced_of result ≡ block_answer (readings_in size listed) (take len out.now) }
{
    let n = if len < out.len() { len } else { out.len() };
    let o = read_table(&out[..n])?;
    Ok(Spliced {
        len: n,
        readings: readings_in(size, listed),
        table: o.table,
    })
}
