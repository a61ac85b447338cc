// Edits that take all readings of a column from a start on.
ghost use Rattle.std.specs.Prelude.{pos};
ghost use Rattle.splice.specs.Kinds.{integer, delta, boolean, text};
ghost use Rattle.counted_table.specs.Calls.{OptionalCounted, BooleanCounted, TextCounted};

use counted_table::CountedTable;
use counted_table::edits::CountedSpliced;
use splice::End;

#[unsafe(no_mangle)]
pub extern "C" fn grundavok_splice_integer_to_end(
    block: &[u8],
    table: CountedTable,
    position: usize,
    start: usize,
    new_values: &[u64],
    new_present: &[u8],
    values: &mut [u64],
    present: &mut [u8],
    out: &mut [u8],
) -> CountedSpliced
    ensures { OptionalCounted integer 0 block.now table position start End.OfList new_values.now new_present.now
        values.old values.new present.old present.new out.old out.new result }
{
    counted_table::edits::splice_integer(
        block,
        table,
        position,
        start,
        End::OfList,
        new_values,
        new_present,
        values,
        present,
        out,
    )
}

#[unsafe(no_mangle)]
pub extern "C" fn grundavok_splice_delta_to_end(
    block: &[u8],
    table: CountedTable,
    position: usize,
    start: usize,
    new_values: &[i64],
    new_present: &[u8],
    values: &mut [i64],
    present: &mut [u8],
    out: &mut [u8],
) -> CountedSpliced
    ensures { OptionalCounted delta (pos 0) block.now table position start End.OfList new_values.now new_present.now
        values.old values.new present.old present.new out.old out.new result }
{
    counted_table::edits::splice_delta(
        block,
        table,
        position,
        start,
        End::OfList,
        new_values,
        new_present,
        values,
        present,
        out,
    )
}

#[unsafe(no_mangle)]
pub extern "C" fn grundavok_splice_boolean_to_end(
    block: &[u8],
    table: CountedTable,
    position: usize,
    start: usize,
    new_values: &[u8],
    values: &mut [u8],
    out: &mut [u8],
) -> CountedSpliced
    ensures { BooleanCounted boolean block.now table position start End.OfList new_values.now
        values.old values.new out.old out.new result }
{
    counted_table::edits::splice_boolean(
        block,
        table,
        position,
        start,
        End::OfList,
        new_values,
        values,
        out,
    )
}

#[unsafe(no_mangle)]
pub extern "C" fn grundavok_splice_text_to_end(
    block: &[u8],
    table: CountedTable,
    position: usize,
    start: usize,
    bytes: &[u8],
    new_starts: &[u64],
    new_lens: &[u64],
    new_present: &[u8],
    starts: &mut [u64],
    lens: &mut [u64],
    present: &mut [u8],
    out: &mut [u8],
) -> CountedSpliced
    ensures { TextCounted text block.now table position start End.OfList bytes.now new_starts.now
        new_lens.now new_present.now starts.old starts.new lens.old lens.new
        present.old present.new out.old out.new result }
{
    counted_table::edits::splice_text(
        block,
        table,
        position,
        start,
        End::OfList,
        bytes,
        new_starts,
        new_lens,
        new_present,
        starts,
        lens,
        present,
        out,
    )
}
