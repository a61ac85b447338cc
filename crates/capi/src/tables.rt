// Tables, the counts that they keep, and a column's part of its block as a start and a length: the caller has the block.
ghost use Rattle.std.specs.Prelude.{◌≡◌, length};
ghost use Rattle.block_frame.specs.Frame.{framed, frame_of, frame_out};
ghost use Rattle.column_part.specs.Part.{part_at, part_for};
ghost use Rattle.corrections.specs.Over.{over};
ghost use Rattle.counted_table.specs.Counts.{counted_opened, counted};
ghost use Rattle.raw_column.specs.Rows.{opened};
ghost use Rattle.raw_column.specs.Table.{parse};
ghost use Rattle.capi.specs.Cases.{part_as, layered_as, frame_as};

use crate::{Frame, Layered, Part};
use counted_table::{CountedColumn, CountedOpened, CountedTable};
use raw_column::TableAnswer;

#[unsafe(no_mangle)]
pub extern "C" fn grundavok_read_table(block: &[u8]) -> TableAnswer
    ensures { result ≡ opened (parse block.now) }
{
    TableAnswer::from(raw_column::read_table(block))
}

#[unsafe(no_mangle)]
pub extern "C" fn grundavok_open_table(block: &[u8]) -> CountedOpened
    ensures { result ≡ counted_opened (parse block.now) }
{
    counted_table::open(block)
}

#[unsafe(no_mangle)]
pub extern "C" fn grundavok_count(
    block: &[u8],
    table: CountedTable,
    position: usize,
) -> CountedColumn
    ensures { result ≡ counted table block.now position }
{
    counted_table::count(block, table, position)
}

#[unsafe(no_mangle)]
pub extern "C" fn grundavok_locate(block: &[u8], position: usize) -> Part
    ensures { result ≡ part_as (part_at block.now position) }
{
    Part::from(column_part::locate(block, position))
}

#[unsafe(no_mangle)]
pub extern "C" fn grundavok_locate_spec(block: &[u8], spec: u32) -> Part
    ensures { result ≡ part_as (part_for block.now spec) }
{
    Part::from(column_part::locate_spec(block, spec))
}

#[unsafe(no_mangle)]
pub extern "C" fn grundavok_locate_over(corrections: &[u8], first: &[u8], spec: u32) -> Layered
    ensures { result ≡ layered_as (over corrections.now first.now spec) }
{
    Layered::from(corrections::locate(corrections, first, spec))
}

#[unsafe(no_mangle)]
pub extern "C" fn grundavok_put_frame(
    block: &[u8],
    position: usize,
    size: usize,
    out: &mut [u8],
) -> Frame
    ensures value { result ≡ frame_as (frame_of size (framed block.now position size (length out.old))) }
    ensures out_after { out.new ≡ frame_out size (framed block.now position size (length out.old)) out.old }
{
    Frame::from(block_frame::put_frame(block, position, size, out))
}
