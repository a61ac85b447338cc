// The edit of a String column: the names of a range replaced, and the whole new block written. The size and the bytes of the new column come from
// the walk and need no slots; these are filled last, from the new column, so that a refusal leaves them as found.
ghost use Rattle.std.specs.Prelude.{◌≡◌, ◌+◌, ◌-◌, ◌≤◌, max, length, take, drop};
ghost use Rattle.leb128.specs.Answer.{done};
ghost use Rattle.encoding.specs.Writer.{column_bytes};
ghost use Rattle.splice.specs.Contract.{TextSpliced};
ghost use Rattle.splice.specs.Edit.{end_in, given_text, spliced_of};
ghost use Rattle.splice.specs.Kinds.{text};
ghost use Rattle.splice.specs.Ready.{Ready, put_behind};
ghost use Rattle.text.specs.Text.{text_e};
ghost use Rattle.encoding.specs.Cases.{maybe_of, fit};
ghost use Rattle.text_encoder.specs.Edits.{new_names, Spliceable, cleared, Refilled, Refillable};

use crate::spliced::{put_spliced, spliced_len};
use block_frame::put_frame;
use encoding::Size;
use refusal::{Refusal, Why};
use splice::{End, Found, Spliced};

// The size of the new column, of the old one from `at` up to `till`.
fn new_len(
    block: &[u8],
    at: usize,
    till: usize,
    bytes: &[u8],
    new_starts: &[u64],
    new_lens: &[u64],
    new_present: &[u8],
    start: usize,
    end: usize,
) -> Size
    requires at_le_till { (at ≤ till) × (till ≤ length block.now) }
    requires spliceable { Spliceable (take (till - at) (drop at block.now)) bytes.now new_starts.now new_lens.now new_present.now start end }
    ensures { maybe_of result ≡ fit (length (column_bytes text_e (new_names (take (till - at) (drop at block.now)) bytes.now
        new_starts.now new_lens.now new_present.now start end))) }
{
    spliced_len(
        &block[at..till],
        bytes,
        new_starts,
        new_lens,
        new_present,
        start,
        end,
    )
}

// The new column, in the part of the output from `to` on.
fn put_new(
    block: &[u8],
    at: usize,
    till: usize,
    bytes: &[u8],
    new_starts: &[u64],
    new_lens: &[u64],
    new_present: &[u8],
    start: usize,
    end: usize,
    out: &mut [u8],
    to: usize,
)
    requires at_le_till { (at ≤ till) × (till ≤ length block.now) }
    requires spliceable { Spliceable (take (till - at) (drop at block.now)) bytes.now new_starts.now new_lens.now new_present.now start end }
    requires end_in_bounds { to + length (column_bytes text_e (new_names (take (till - at) (drop at block.now)) bytes.now
        new_starts.now new_lens.now new_present.now start end)) ≤ length out.old }
    ensures { out.new ≡ put_behind to (column_bytes text_e (new_names (take (till - at) (drop at block.now)) bytes.now
        new_starts.now new_lens.now new_present.now start end)) out.old }
{
    put_spliced(
        &block[at..till],
        bytes,
        new_starts,
        new_lens,
        new_present,
        start,
        end,
        &mut out[to..],
    );
}

// Absent zeros from one slot up to another.
fn clear(starts: &mut [u64], lens: &mut [u64], present: &mut [u8], from: usize, to: usize)
    requires { (from ≤ to) × (to ≤ length starts.old) × (length lens.old ≡ length starts.old) × (length present.old ≡ length starts.old) }
    ensures { (starts.new ≡ cleared from to starts.old)
        × (lens.new ≡ cleared from to lens.old)
        × (present.new ≡ cleared from to present.old) }
{
    let mut i = from;
    while i < to {
        starts[i] = 0;
        lens[i] = 0;
        present[i] = 0;
        i += 1;
    }
}

// The slots filled from a column, absent zeros behind its readings up to m.
fn refill(column: &[u8], m: usize, starts: &mut [u64], lens: &mut [u64], present: &mut [u8])
    requires { Refillable column.now m (length starts.old) (length lens.old) (length present.old) }
    ensures { Refilled column.now m starts.old starts.new lens.old lens.new
        present.old present.new }
{
    match text_decoder::decode(column, starts, lens, present) {
        Ok(n) => clear(starts, lens, present, n as usize, m),
        Err(_) => {}
    }
}

// The same of the column of `size` bytes at a position of the output.
fn refill_from(
    out: &[u8],
    at: usize,
    size: usize,
    m: usize,
    starts: &mut [u64],
    lens: &mut [u64],
    present: &mut [u8],
)
    requires size_in_bounds { at + size ≤ length out.now }
    requires refillable { Refillable (take size (drop at out.now)) m (length starts.old) (length lens.old) (length present.old) }
    ensures { Refilled (take size (drop at out.now)) m starts.old starts.new lens.old lens.new
        present.old present.new }
{
    let end = at + size;
    refill(&out[at..end], m, starts, lens, present);
}

fn longer(a: usize, b: usize) -> usize
    ensures { result ≡ max a b }
{
    if a < b {
        return b;
    }
    a
}

// An edit that is ready, whose new column takes `size` bytes: 10, or the new block and the slots.
fn put_block_text(
    block: &[u8],
    position: usize,
    found: Found,
    size: usize,
    start: usize,
    end: End,
    bytes: &[u8],
    new_starts: &[u64],
    new_lens: &[u64],
    new_present: &[u8],
    starts: &mut [u64],
    lens: &mut [u64],
    present: &mut [u8],
    out: &mut [u8],
) -> Result<Spliced, Refusal>
    requires ready { Ready text block.now position start end (length new_starts.now) (length starts.old) found.at found.till found.old found.len }
    requires new_present_value { given_text (length starts.old) (length lens.old) (length present.old) bytes.now new_starts.now new_lens.now new_present.now ≡ done 0 }
    requires size_value { size ≡ length (column_bytes text_e (new_names (take (found.till - found.at) (drop found.at block.now)) bytes.now
        new_starts.now new_lens.now new_present.now start (end_in end found.old))) }
    ensures { TextSpliced text block.now position start end bytes.now new_starts.now new_lens.now
        new_present.now starts.old starts.new lens.old lens.new
        present.old present.new out.old out.new (spliced_of result) }
{
    let frame = put_frame(block, position, size, out)?;
    let at = frame.at;
    put_new(
        block,
        found.at,
        found.till,
        bytes,
        new_starts,
        new_lens,
        new_present,
        start,
        splice::end_in(end, found.old),
        out,
        at,
    );
    refill_from(
        out,
        at,
        size,
        longer(found.old, found.len),
        starts,
        lens,
        present,
    );
    splice::block_answer(out, frame.len, size, found.len)
}

// An edit that is ready.
fn edit_text(
    block: &[u8],
    position: usize,
    found: Found,
    start: usize,
    end: End,
    bytes: &[u8],
    new_starts: &[u64],
    new_lens: &[u64],
    new_present: &[u8],
    starts: &mut [u64],
    lens: &mut [u64],
    present: &mut [u8],
    out: &mut [u8],
) -> Result<Spliced, Refusal>
    requires ready { Ready text block.now position start end (length new_starts.now) (length starts.old) found.at found.till found.old found.len }
    requires new_present_value { given_text (length starts.old) (length lens.old) (length present.old) bytes.now new_starts.now new_lens.now new_present.now ≡ done 0 }
    ensures { TextSpliced text block.now position start end bytes.now new_starts.now new_lens.now
        new_present.now starts.old starts.new lens.old lens.new
        present.old present.new out.old out.new (spliced_of result) }
{
    let size = new_len(
        block,
        found.at,
        found.till,
        bytes,
        new_starts,
        new_lens,
        new_present,
        start,
        splice::end_in(end, found.old),
    );
    match size {
        Some(n) => put_block_text(
            block,
            position,
            found,
            n as usize,
            start,
            end,
            bytes,
            new_starts,
            new_lens,
            new_present,
            starts,
            lens,
            present,
            out,
        ),
        None => Err(Refusal(Why::OutputTooShort, 0)),
    }
}

// The names of a range of the column at a position replaced by the new ones: from start up to an index, or to the end of the list.
pub fn splice_text(
    block: &[u8],
    position: usize,
    start: usize,
    end: End,
    bytes: &[u8],
    new_starts: &[u64],
    new_lens: &[u64],
    new_present: &[u8],
    starts: &mut [u64],
    lens: &mut [u64],
    present: &mut [u8],
    out: &mut [u8],
) -> Result<Spliced, Refusal>
    ensures { TextSpliced text block.now position start end bytes.now new_starts.now new_lens.now
        new_present.now starts.old starts.new lens.old lens.new
        present.old present.new out.old out.new (spliced_of result) }
{
    let found = splice::plan_text(
        block,
        position,
        start,
        end,
        bytes,
        new_starts,
        new_lens,
        new_present,
        starts.len(),
        lens.len(),
        present.len(),
    )?;
    edit_text(
        block,
        position,
        found,
        start,
        end,
        bytes,
        new_starts,
        new_lens,
        new_present,
        starts,
        lens,
        present,
        out,
    )
}
