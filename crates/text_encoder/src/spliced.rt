// A column's names with a range of them replaced by given ones, as a column of their own: its size, and its bytes.
ghost use Rattle.std.specs.Prelude.{◌≡◌, ◌≤◌, length};
ghost use Rattle.std.proofs.lemmas.List.Edits.{sets};
ghost use Rattle.encoding.specs.Writer.{column_bytes};
ghost use Rattle.text.specs.Text.{text_e};
ghost use Rattle.encoding.specs.Cases.{maybe_of, fit};
ghost use Rattle.text_encoder.specs.Edits.{new_names, Spliceable};

use crate::sizes::column_len;
use crate::walk::first;
use crate::writing::put_column;
use encoding::Size;

// How many bytes they take.
pub(crate) fn spliced_len(
    column: &[u8],
    bytes: &[u8],
    starts: &[u64],
    lens: &[u64],
    present: &[u8],
    start: usize,
    end: usize,
) -> Size
    requires { Spliceable column.now bytes.now starts.now lens.now present.now start end }
    ensures { maybe_of result ≡ fit (length (column_bytes text_e
        (new_names column.now bytes.now starts.now lens.now present.now start end))) }
{
    let s = first(column, bytes, starts, lens, present, start, end);
    column_len(column, bytes, starts, lens, present, s)
}

// They, at the front of an output with room for them.
pub(crate) fn put_spliced(
    column: &[u8],
    bytes: &[u8],
    starts: &[u64],
    lens: &[u64],
    present: &[u8],
    start: usize,
    end: usize,
    out: &mut [u8],
)
    requires spliceable { Spliceable column.now bytes.now starts.now lens.now present.now start end }
    requires end_in_bounds { length (column_bytes text_e (new_names column.now bytes.now starts.now lens.now present.now start end)) ≤ length out.old }
    ensures { out.new ≡ sets out.old 0 (column_bytes text_e
        (new_names column.now bytes.now starts.now lens.now present.now start end)) }
{
    let s = first(column, bytes, starts, lens, present, start, end);
    put_column(column, bytes, starts, lens, present, s, out);
}
