// The edit of a Boolean column: a range of its readings replaced, and the whole new block written (what the crate's
// columnar/column_range/delta.rs does for delta columns).
#![tactic(auto)]

ghost use Rattle.std.specs.Prelude.{◌≡◌, ◌-◌, ◌≤◌, length, take, drop};
ghost use Rattle.leb128.specs.Answer.{done};
ghost use Rattle.encoding.specs.Cases.{answer_of};
ghost use Rattle.boolean_decoder.specs.Decoded.{Decoded};
ghost use Rattle.boolean_decoder.specs.Turns.{bool_trace};
ghost use Rattle.splice.specs.Contract.{BooleanSpliced};
ghost use Rattle.splice.specs.Edit.{given_boolean, spliced_of};
ghost use Rattle.splice.specs.Kinds.{boolean};
ghost use Rattle.splice.specs.Ready.{HasRow, Ready, Good, Writable, put_behind, Finished};

use block_frame::put_frame;
use encoding::Answer;
use refusal::Refusal;
use splice::{ColumnKind, End, Found, Spliced};

// The old list into the slots.
fn load_u8(block: &[u8], at: usize, till: usize, values: &mut [u8]) -> Answer
    requires { (at ≤ till) × (till ≤ length block.now) }
    ensures { Decoded (bool_trace (take (till - at) (drop at block.now))) values.old values.new (answer_of result) }
{
    boolean_decoder::decode(&block[at..till], values)
}

// The list as a column, in the part of the output behind the new table and the earlier columns.
fn fill_u8(values: &[u8], out: &mut [u8], at: usize)
    requires { Writable boolean values.now (length values.now) values.now at (length out.old) }
    ensures { out.new ≡ put_behind at (boolean.writes values.now) out.old }
{
    let _ = boolean_encoder::encode(values, &mut out[at..]);
}

// The new block around a column of so many bytes.
fn put_block_u8(
    block: &[u8],
    position: usize,
    size: usize,
    values: &[u8],
    out: &mut [u8],
) -> Result<Spliced, Refusal>
    requires has_row { HasRow block.now position }
    requires good { Good (length values.now) values.now }
    requires size_value { size ≡ length (boolean.writes values.now) }
    ensures { Finished boolean block.now position values.now out.old out.new (spliced_of result) }
{
    let frame = put_frame(block, position, size, out)?;
    fill_u8(values, out, frame.at);
    splice::block_answer(out, frame.len, size, values.len())
}

// 10, or the new block, for the list that stands in the slots.
fn write_block_u8(
    block: &[u8],
    position: usize,
    values: &[u8],
    out: &mut [u8],
) -> Result<Spliced, Refusal>
    requires has_row { HasRow block.now position }
    requires good { Good (length values.now) values.now }
    ensures { Finished boolean block.now position values.now out.old out.new (spliced_of result) }
{
    let size = boolean_encoder::encoded_len(values)? as usize;
    put_block_u8(block, position, size, values, out)
}

// The same for the slots' first `len`.
fn finish_u8(
    block: &[u8],
    position: usize,
    len: usize,
    values: &[u8],
    out: &mut [u8],
) -> Result<Spliced, Refusal>
    requires has_row { HasRow block.now position }
    requires len_in_bounds { len ≤ length values.now }
    requires good { Good (length (take len values.now)) (take len values.now) }
    ensures { Finished boolean block.now position (take len values.now) out.old out.new (spliced_of result) }
{
    write_block_u8(block, position, &values[..len], out)
}

// An edit that is ready.
fn edit_u8(
    block: &[u8],
    position: usize,
    found: Found,
    start: usize,
    end: End,
    new: &[u8],
    values: &mut [u8],
    out: &mut [u8],
) -> Result<Spliced, Refusal>
    requires ready { Ready boolean block.now position start end (length new.now) (length values.old) found.at found.till found.old found.len }
    requires value { given_boolean new.now ≡ done 0 }
    ensures { BooleanSpliced boolean block.now position start end new.now
        values.old values.new out.old out.new (spliced_of result) }
{
    let _ = load_u8(block, found.at, found.till, values);
    let old = found.old;
    let _ = slots::splice(values, old, start, splice::end_in(end, old), new);
    finish_u8(block, position, found.len, values, out)
}

// The readings of a range of the column at a position replaced by the new ones: from start up to an index, or to the end of the list.
pub fn splice_boolean(
    block: &[u8],
    position: usize,
    start: usize,
    end: End,
    new: &[u8],
    values: &mut [u8],
    out: &mut [u8],
) -> Result<Spliced, Refusal>
    ensures { BooleanSpliced boolean block.now position start end new.now
        values.old values.new out.old out.new (spliced_of result) }
{
    let found = splice::plan(
        block,
        position,
        ColumnKind::Boolean,
        start,
        end,
        new.len(),
        new,
        values.len(),
        values.len(),
    )?;
    edit_u8(block, position, found, start, end, new, values, out)
}
