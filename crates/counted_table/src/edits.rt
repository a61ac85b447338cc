// The edits, lent the table of their block and giving the new one: its counts as lent but for the edited column's.
ghost use Rattle.std.specs.Prelude.{◌≡◌, pos, ◌≤◌};
ghost use Rattle.refusal.specs.Number.{number_of};
ghost use Rattle.splice.specs.Edit.{spliced_of};
ghost use Rattle.splice.specs.Kinds.{integer, delta, boolean, text};
ghost use Rattle.counted_table.specs.Calls.{unspliced, spliced_by, OptionalCounted, BooleanCounted, TextCounted};

use crate::{CountedTable, open_lent, store};
use refusal::Refusal;
use splice::{End, Spliced};

// The new block's length and its table, the new column's count stored; or a refusal's number and place, and the table as it was lent.
#[repr(C)]
#[derive(Clone, Copy)]
pub struct CountedSpliced {
    pub number: u8,
    pub place: usize,
    pub len: usize,
    pub table: CountedTable,
}

fn refused(lent: CountedTable, refusal: Refusal) -> CountedSpliced
    ensures { result ≡ unspliced lent (number_of refusal.0) refusal.1 }
{
    let Refusal(why, place) = refusal;
    CountedSpliced {
        number: u8::from(why),
        place: place,
        len: 0,
        table: lent,
    }
}

// What an edit answered, with the count of its column stored.
fn answer(lent: CountedTable, position: usize, r: Result<Spliced, Refusal>) -> CountedSpliced
    requires { (spliced_of r).table.rows ≤ 64 }
    ensures { result ≡ spliced_by lent position (spliced_of r) }
{
    match r {
        Ok(s) => {
            let t = s.table;
            let c = store(lent, t, position, s.readings as u64);
            CountedSpliced {
                number: 0,
                place: 0,
                len: s.len,
                table: c,
            }
        }
        Err(refusal) => refused(lent, refusal),
    }
}

// The readings of a range of the column at a position replaced by the new ones.
pub fn splice_integer(
    block: &[u8],
    lent: CountedTable,
    position: usize,
    start: usize,
    end: End,
    new: &[u64],
    new_present: &[u8],
    values: &mut [u64],
    present: &mut [u8],
    out: &mut [u8],
) -> CountedSpliced
    ensures { OptionalCounted integer 0 block.now lent position start end new.now new_present.now
        values.old values.new present.old present.new out.old out.new result }
{
    match open_lent(block, lent) {
        Ok(_) => {}
        Err(refusal) => return refused(lent, refusal),
    }
    let r = rle_range::splice_integer(
        block,
        position,
        start,
        end,
        new,
        new_present,
        values,
        present,
        out,
    );
    answer(lent, position, r)
}

// The readings of a range of the column at a position replaced by the new ones.
pub fn splice_delta(
    block: &[u8],
    lent: CountedTable,
    position: usize,
    start: usize,
    end: End,
    new: &[i64],
    new_present: &[u8],
    values: &mut [i64],
    present: &mut [u8],
    out: &mut [u8],
) -> CountedSpliced
    ensures { OptionalCounted delta (pos 0) block.now lent position start end new.now new_present.now
        values.old values.new present.old present.new out.old out.new result }
{
    match open_lent(block, lent) {
        Ok(_) => {}
        Err(refusal) => return refused(lent, refusal),
    }
    let r = delta_range::splice_delta(
        block,
        position,
        start,
        end,
        new,
        new_present,
        values,
        present,
        out,
    );
    answer(lent, position, r)
}

// The same of booleans.
pub fn splice_boolean(
    block: &[u8],
    lent: CountedTable,
    position: usize,
    start: usize,
    end: End,
    new: &[u8],
    values: &mut [u8],
    out: &mut [u8],
) -> CountedSpliced
    ensures { BooleanCounted boolean block.now lent position start end new.now
        values.old values.new out.old out.new result }
{
    match open_lent(block, lent) {
        Ok(_) => {}
        Err(refusal) => return refused(lent, refusal),
    }
    let r = boolean_range::splice_boolean(block, position, start, end, new, values, out);
    answer(lent, position, r)
}

// The same of names.
pub fn splice_text(
    block: &[u8],
    lent: CountedTable,
    position: usize,
    start: usize,
    end: End,
    bytes: &[u8],
    new_starts: &[u64],
    new_lens: &[u64],
    new_present: &[u8],
    starts: &mut [u64],
    lens: &mut [u64],
    present: &mut [u8],
    out: &mut [u8],
) -> CountedSpliced
    ensures { TextCounted text block.now lent position start end bytes.now new_starts.now
        new_lens.now new_present.now starts.old starts.new lens.old lens.new
        present.old present.new out.old out.new result }
{
    match open_lent(block, lent) {
        Ok(_) => {}
        Err(refusal) => return refused(lent, refusal),
    }
    let r = text_encoder::range::splice_text(
        block,
        position,
        start,
        end,
        bytes,
        new_starts,
        new_lens,
        new_present,
        starts,
        lens,
        present,
        out,
    );
    answer(lent, position, r)
}
