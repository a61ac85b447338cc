// The frame of a new block (the writing half of the crate's storage/columns/raw_column.rs): the new table, the earlier columns, room for
// the new column, the later columns. Each other column is copied once, and nothing is changed where the block does not fit.
#![tactic(auto)]

ghost use Rattle.std.specs.Prelude.{◌≡◌, ◌++◌, ◌+◌, ◌≤◌, length};
ghost use Rattle.leb128.specs.Write.{u64_bytes};
ghost use Rattle.encoding.specs.Ahead.{PutAt};
ghost use Rattle.block_frame.specs.Chosen.{Chosen};
ghost use Rattle.block_frame.specs.Columns.{rows_bytes, table_bytes};
ghost use Rattle.block_frame.specs.Frame.{room, framed, frame_of, frame_out, laid_of};

use raw_column::{Table, read_table};
use refusal::{Refusal, Why};

// Where the new column of a new block goes, and how long the block is.
#[derive(Clone, Copy, Debug, PartialEq, Eq)]
pub struct Frame {
    pub at: usize,
    pub len: usize,
}

// A number where there is room for it; the position behind it.
fn put_number(out: &mut [u8], at: usize, v: u64) -> usize
    requires { at + length (u64_bytes v) ≤ length out.old }
    ensures { PutAt out.old out.new at result (u64_bytes v) }
{
    leb128_writer::put_u64(v, out, at).unwrap_or(at)
}

// Bytes where there is room for them; the position behind them.
fn put_bytes(out: &mut [u8], at: usize, src: &[u8]) -> usize
    requires { at + length src.now ≤ length out.old }
    ensures { PutAt out.old out.new at result src.now }
{
    // A loop: of `copy_from_slice` the compiler makes a call of memmove, and hosts lend memcpy and memset alone.
    for i in 0..src.len() {
        out[at + i] = src[i];
    }
    at + src.len()
}

// How many bytes rows take.
fn rows_len(specs: &[u32], lens: &[u64]) -> usize
    requires { length specs.now ≤ 64 }
    ensures { (result ≡ length (rows_bytes specs.now lens.now)) × (result ≤ 1280) }
{
    let mut k: usize = 0;
    for (spec, len) in specs.iter().zip(lens) {
        k += leb128_writer::len_u64(u64::from(*spec)) + leb128_writer::len_u64(*len);
    }
    k
}

// How many bytes a table takes.
fn table_len(specs: &[u32], lens: &[u64]) -> usize
    requires { length specs.now ≤ 64 }
    ensures { (result ≡ length (table_bytes specs.now lens.now)) × (result ≤ 1290) }
{
    leb128_writer::len_u64(specs.len() as u64) + rows_len(specs, lens)
}

fn put_rows(out: &mut [u8], at: usize, specs: &[u32], lens: &[u64]) -> usize
    requires { at + length (rows_bytes specs.now lens.now) ≤ length out.old }
    ensures { PutAt out.old out.new at result (rows_bytes specs.now lens.now) }
{
    let mut p = at;
    for (spec, len) in specs.iter().zip(lens) {
        p = put_number(out, p, u64::from(*spec));
        p = put_number(out, p, *len);
    }
    p
}

fn put_table(out: &mut [u8], specs: &[u32], lens: &[u64]) -> usize
    requires { length (table_bytes specs.now lens.now) ≤ length out.old }
    ensures { PutAt out.old out.new 0 result (table_bytes specs.now lens.now) }
{
    let p = put_number(out, 0, specs.len() as u64);
    put_rows(out, p, specs, lens)
}

// The table and the earlier columns; the position behind them.
fn put_head(out: &mut [u8], specs: &[u32], lens: &[u64], earlier: &[u8]) -> usize
    requires { length (table_bytes specs.now lens.now ++ earlier.now) ≤ length out.old }
    ensures { PutAt out.old out.new 0 result (table_bytes specs.now lens.now ++ earlier.now) }
{
    let p = put_table(out, specs, lens);
    put_bytes(out, p, earlier)
}

// The head and the later columns, with room for `size` bytes between them; the position of the room.
fn put_around(
    out: &mut [u8],
    specs: &[u32],
    lens: &[u64],
    earlier: &[u8],
    size: usize,
    later: &[u8],
) -> usize
    requires { length (table_bytes specs.now lens.now ++ earlier.now) + (size + length later.now) ≤ length out.old }
    ensures { (result ≡ length (table_bytes specs.now lens.now ++ earlier.now))
        × (out.new ≡ frame_out size (room (table_bytes specs.now lens.now ++ earlier.now) later.now) out.old) }
{
    let at = put_head(out, specs, lens, earlier);
    put_bytes(out, at + size, later);
    at
}

// The frame in a block whose table was accepted and has the position.
fn frame_in(
    block: &[u8],
    table: Table,
    next: usize,
    position: usize,
    size: usize,
    out: &mut [u8],
) -> Result<Frame, Refusal>
    requires { Chosen block.now table next position }
    ensures value { laid_of result ≡ frame_of size (framed block.now position size (length out.old)) }
    ensures out_after { out.new ≡ frame_out size (framed block.now position size (length out.old)) out.old }
{
    let start = next + table.starts[position] as usize;
    let end = start + table.lens[position] as usize;
    let n = table.rows;
    let specs = &table.specs[..n];
    let mut lens = table.lens;
    lens[position] = size as u64;
    let lens = &lens[..n];
    let fixed = table_len(specs, lens) + (start - next) + (block.len() - end);
    if out.len() < fixed {
        return Err(Refusal(Why::OutputTooShort, 0));
    }
    if out.len() - fixed < size {
        return Err(Refusal(Why::OutputTooShort, 0));
    }
    let at = put_around(out, specs, lens, &block[next..start], size, &block[end..]);
    Ok(Frame {
        at,
        len: fixed + size,
    })
}

// A new block of which the column at a position is to have `size` bytes, but for that column.
pub fn put_frame(
    block: &[u8],
    position: usize,
    size: usize,
    out: &mut [u8],
) -> Result<Frame, Refusal>
    ensures value { laid_of result ≡ frame_of size (framed block.now position size (length out.old)) }
    ensures out_after { out.new ≡ frame_out size (framed block.now position size (length out.old)) out.old }
{
    let o = read_table(block)?;
    if o.table.rows <= position {
        return Err(Refusal(Why::NoSuchColumn, 0));
    }
    frame_in(block, o.table, o.start, position, size, out)
}
