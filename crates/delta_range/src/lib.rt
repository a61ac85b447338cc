// The edit of a DeltaInteger column: a range of its readings replaced, and the whole new block written (the splice of the crate's
// columnar/column_range/delta.rs).
#![tactic(auto)]

ghost use Rattle.std.specs.Prelude.{◌≡◌, map, ◌+◌, ◌-◌, ◌≤◌, pos, length, take, drop};
ghost use Rattle.std.proofs.Math.Option.{none};
ghost use Rattle.std.proofs.Math.Seq.{paste};
ghost use Rattle.leb128.specs.Answer.{done};
ghost use Rattle.encoding.specs.Cases.{answer_of};
ghost use Rattle.encoding.specs.Given.{given, slot_list};
ghost use Rattle.encoding.specs.Slots.{slot_of, flag_of, Decoded};
ghost use Rattle.delta_decoder.specs.Sums.{delta_trace};
ghost use Rattle.splice.specs.Contract.{slot_in, OptionalSpliced};
ghost use Rattle.splice.specs.Edit.{given_optional, spliced_of};
ghost use Rattle.splice.specs.Kinds.{delta};
ghost use Rattle.splice.specs.Ready.{HasRow, Ready, Fits, Replaced, Good, Writable, put_behind, Finished};

use block_frame::put_frame;
use encoding::Answer;
use refusal::Refusal;
use splice::{ColumnKind, End, Found, Spliced};

// A given reading's value in its slot: that of an absent one is 0 there, whatever was given.
fn held_i64(v: i64, flag: u8) -> i64
    ensures { result ≡ slot_in (pos 0) (given flag v) }
{
    if flag == 0 {
        return 0;
    }
    v
}

// The new readings in the slots from `at` on.
fn put_new_i64(values: &mut [i64], at: usize, new: &[i64], new_present: &[u8])
    requires { (at + length new.now ≤ length values.old) × (length new_present.now ≡ length new.now) }
    ensures { values.new ≡ paste values.old at (map (slot_in (pos 0)) (slot_list new.now new_present.now)) (length new.now) }
{
    let mut i: usize = 0;
    while i < new.len() {
        values[at + i] = held_i64(new[i], new_present[i]);
        i += 1;
    }
}

// The new list in slots that hold the old one.
fn replace_i64(
    values: &mut [i64],
    present: &mut [u8],
    old: usize,
    start: usize,
    end: usize,
    new: &[i64],
    new_present: &[u8],
)
    requires { Fits start end old (length new.now) (length new_present.now) (length values.old) (length present.old) }
    ensures { Replaced (pos 0) old start end new.now new_present.now values.old values.new present.old present.new }
{
    let _ = slots::splice(values, old, start, end, new);
    let _ = slots::splice(present, old, start, end, new_present);
    put_new_i64(values, start, new, new_present);
}

// The old list into the slots.
fn load_i64(block: &[u8], at: usize, till: usize, values: &mut [i64], present: &mut [u8]) -> Answer
    requires { (at ≤ till) × (till ≤ length block.now) }
    ensures { Decoded (delta_trace (take (till - at) (drop at block.now))) (slot_of (pos 0)) flag_of
        values.old values.new present.old present.new (answer_of result) }
{
    delta_decoder::decode(&block[at..till], values, present)
}

// The list as a column, in the part of the output behind the new table and the earlier columns.
fn fill_i64(values: &[i64], present: &[u8], out: &mut [u8], at: usize)
    requires { Writable delta (slot_list values.now present.now) (length values.now) present.now at (length out.old) }
    ensures { out.new ≡ put_behind at (delta.writes (slot_list values.now present.now)) out.old }
{
    let _ = delta_encoder::encode(values, present, &mut out[at..]);
}

// The new block around a column of so many bytes.
fn put_block_i64(
    block: &[u8],
    position: usize,
    size: usize,
    values: &[i64],
    present: &[u8],
    out: &mut [u8],
) -> Result<Spliced, Refusal>
    requires has_row { HasRow block.now position }
    requires good { Good (length values.now) present.now }
    requires size_value { (size ≡ length (delta.writes (slot_list values.now present.now))) × (delta.wide (slot_list values.now present.now) ≡ none) }
    ensures { Finished delta block.now position (slot_list values.now present.now) out.old out.new (spliced_of result) }
{
    let frame = put_frame(block, position, size, out)?;
    fill_i64(values, present, out, frame.at);
    splice::block_answer(out, frame.len, size, values.len())
}

// 7, 10, or the new block, for the list that stands in the slots.
fn write_block_i64(
    block: &[u8],
    position: usize,
    values: &[i64],
    present: &[u8],
    out: &mut [u8],
) -> Result<Spliced, Refusal>
    requires has_row { HasRow block.now position }
    requires good { Good (length values.now) present.now }
    ensures { Finished delta block.now position (slot_list values.now present.now) out.old out.new (spliced_of result) }
{
    let size = delta_encoder::encoded_len(values, present)? as usize;
    put_block_i64(block, position, size, values, present, out)
}

// The same for the slots' first `len`.
fn finish_i64(
    block: &[u8],
    position: usize,
    len: usize,
    values: &[i64],
    present: &[u8],
    out: &mut [u8],
) -> Result<Spliced, Refusal>
    requires has_row { HasRow block.now position }
    requires len_in_bounds { (len ≤ length values.now) × (len ≤ length present.now) }
    requires good { Good (length (take len values.now)) (take len present.now) }
    ensures { Finished delta block.now position (slot_list (take len values.now) (take len present.now)) out.old out.new (spliced_of result) }
{
    write_block_i64(block, position, &values[..len], &present[..len], out)
}

// An edit that is ready.
fn edit_i64(
    block: &[u8],
    position: usize,
    found: Found,
    start: usize,
    end: End,
    new: &[i64],
    new_present: &[u8],
    values: &mut [i64],
    present: &mut [u8],
    out: &mut [u8],
) -> Result<Spliced, Refusal>
    requires ready { Ready delta block.now position start end (length new.now) (length values.old) found.at found.till found.old found.len }
    requires new_present_value { given_optional (length values.old) (length present.old) (length new.now) new_present.now ≡ done 0 }
    ensures { OptionalSpliced delta (pos 0) block.now position start end new.now new_present.now
        values.old values.new present.old present.new out.old out.new (spliced_of result) }
{
    let _ = load_i64(block, found.at, found.till, values, present);
    let old = found.old;
    replace_i64(
        values,
        present,
        old,
        start,
        splice::end_in(end, old),
        new,
        new_present,
    );
    finish_i64(block, position, found.len, values, present, out)
}

// The readings of a range of the column at a position replaced by the new ones: from start up to an index, or to the end of the list.
pub fn splice_delta(
    block: &[u8],
    position: usize,
    start: usize,
    end: End,
    new: &[i64],
    new_present: &[u8],
    values: &mut [i64],
    present: &mut [u8],
    out: &mut [u8],
) -> Result<Spliced, Refusal>
    ensures { OptionalSpliced delta (pos 0) block.now position start end new.now new_present.now
        values.old values.new present.old present.new out.old out.new (spliced_of result) }
{
    let found = splice::plan(
        block,
        position,
        ColumnKind::Delta,
        start,
        end,
        new.len(),
        new_present,
        values.len(),
        present.len(),
    )?;
    edit_i64(
        block,
        position,
        found,
        start,
        end,
        new,
        new_present,
        values,
        present,
        out,
    )
}
