// Edits of a range of a column in its block, and of a list in slots.
ghost use Rattle.std.specs.Prelude.{◌≡◌, pos, length};
ghost use Rattle.slots.specs.Splice.{splice_answer, spliced_slots};
ghost use Rattle.splice.specs.Kinds.{integer, delta, boolean, text};
ghost use Rattle.counted_table.specs.Calls.{OptionalCounted, BooleanCounted, TextCounted};
ghost use Rattle.capi.specs.Cases.{counted};

use crate::Counted;
use counted_table::CountedTable;
use counted_table::edits::CountedSpliced;
use splice::End;

#[unsafe(no_mangle)]
pub extern "C" fn grundavok_splice_integer(
    block: &[u8],
    table: CountedTable,
    position: usize,
    start: usize,
    end: usize,
    new_values: &[u64],
    new_present: &[u8],
    values: &mut [u64],
    present: &mut [u8],
    out: &mut [u8],
) -> CountedSpliced
    ensures { OptionalCounted integer 0 block.now table position start (End.At end) new_values.now new_present.now
        values.old values.new present.old present.new out.old out.new result }
{
    counted_table::edits::splice_integer(
        block,
        table,
        position,
        start,
        End::At(end),
        new_values,
        new_present,
        values,
        present,
        out,
    )
}

#[unsafe(no_mangle)]
pub extern "C" fn grundavok_splice_delta(
    block: &[u8],
    table: CountedTable,
    position: usize,
    start: usize,
    end: usize,
    new_values: &[i64],
    new_present: &[u8],
    values: &mut [i64],
    present: &mut [u8],
    out: &mut [u8],
) -> CountedSpliced
    ensures { OptionalCounted delta (pos 0) block.now table position start (End.At end) new_values.now new_present.now
        values.old values.new present.old present.new out.old out.new result }
{
    counted_table::edits::splice_delta(
        block,
        table,
        position,
        start,
        End::At(end),
        new_values,
        new_present,
        values,
        present,
        out,
    )
}

#[unsafe(no_mangle)]
pub extern "C" fn grundavok_splice_boolean(
    block: &[u8],
    table: CountedTable,
    position: usize,
    start: usize,
    end: usize,
    new_values: &[u8],
    values: &mut [u8],
    out: &mut [u8],
) -> CountedSpliced
    ensures { BooleanCounted boolean block.now table position start (End.At end) new_values.now
        values.old values.new out.old out.new result }
{
    counted_table::edits::splice_boolean(
        block,
        table,
        position,
        start,
        End::At(end),
        new_values,
        values,
        out,
    )
}

#[unsafe(no_mangle)]
pub extern "C" fn grundavok_splice_text(
    block: &[u8],
    table: CountedTable,
    position: usize,
    start: usize,
    end: usize,
    bytes: &[u8],
    new_starts: &[u64],
    new_lens: &[u64],
    new_present: &[u8],
    starts: &mut [u64],
    lens: &mut [u64],
    present: &mut [u8],
    out: &mut [u8],
) -> CountedSpliced
    ensures { TextCounted text block.now table position start (End.At end) bytes.now new_starts.now
        new_lens.now new_present.now starts.old starts.new lens.old lens.new
        present.old present.new out.old out.new result }
{
    counted_table::edits::splice_text(
        block,
        table,
        position,
        start,
        End::At(end),
        bytes,
        new_starts,
        new_lens,
        new_present,
        starts,
        lens,
        present,
        out,
    )
}

#[unsafe(no_mangle)]
pub extern "C" fn grundavok_slots_splice_u64(
    held: &mut [u64],
    old: usize,
    start: usize,
    end: usize,
    new_values: &[u64],
) -> Counted
    ensures value { result ≡ counted (splice_answer (length held.old) old start end (length new_values.now)) }
    ensures held_after { held.new ≡ spliced_slots 0 (splice_answer (length held.old) old start end (length new_values.now))
        held.old old start end new_values.now }
{
    Counted::from(slots::splice::<u64>(held, old, start, end, new_values))
}

#[unsafe(no_mangle)]
pub extern "C" fn grundavok_slots_splice_i64(
    held: &mut [i64],
    old: usize,
    start: usize,
    end: usize,
    new_values: &[i64],
) -> Counted
    ensures value { result ≡ counted (splice_answer (length held.old) old start end (length new_values.now)) }
    ensures held_after { held.new ≡ spliced_slots (pos 0) (splice_answer (length held.old) old start end (length new_values.now))
        held.old old start end new_values.now }
{
    Counted::from(slots::splice::<i64>(held, old, start, end, new_values))
}

#[unsafe(no_mangle)]
pub extern "C" fn grundavok_slots_splice_u8(
    held: &mut [u8],
    old: usize,
    start: usize,
    end: usize,
    new_values: &[u8],
) -> Counted
    ensures value { result ≡ counted (splice_answer (length held.old) old start end (length new_values.now)) }
    ensures held_after { held.new ≡ spliced_slots 0 (splice_answer (length held.old) old start end (length new_values.now))
        held.old old start end new_values.now }
{
    Counted::from(slots::splice::<u8>(held, old, start, end, new_values))
}
