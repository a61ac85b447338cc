// How many bytes the list that is walked takes as a column. Names that overlap in their lent bytes can take more than a u64 counts.
ghost use Rattle.std.specs.Prelude.{◌≡◌, ◌+◌, ◌≤◌, ◌<◌, length, take};
ghost use Rattle.encoding.specs.Ahead.{end_of};
ghost use Rattle.encoding.specs.Limit.{limit};
ghost use Rattle.encoding.specs.Stretches.{stretches};
ghost use Rattle.encoding.specs.Writer.{all_bytes, stretch_bytes, stretches_bytes, any_present, column_bytes};
ghost use Rattle.text.specs.Text.{same_bytes, text_e};
ghost use Rattle.encoding.specs.Cases.{maybe_of, fit};
ghost use Rattle.encoding.specs.Cuts.{somes, stretch_in, PresentIn};
ghost use Rattle.text_encoder.specs.Walks.{size_in, At, names_from, Pairs};

use crate::stretches::{is_absent, stretch_at};
use crate::walk::{Held, Splicing, advanced, stepped};
use encoding::{Size, StretchEnd};

fn sum(a: u64, b: u64) -> Size
    ensures { maybe_of result ≡ fit (a + b) }
{
    if a <= u64::MAX - b {
        return Some(a + b);
    }
    None
}

// A name's length number and its bytes; nothing of an absent reading.
fn held_len(held: Held) -> Size
    ensures { maybe_of result ≡ fit (size_in held) }
{
    match held {
        Held::Absent => Some(0),
        Held::Old(_, len) => sum(leb128_writer::len_u64(len as u64) as u64, len as u64),
        Held::New(_, len) => sum(leb128_writer::len_u64(len as u64) as u64, len as u64),
    }
}

// The same behind so many bytes.
fn counted(before: u64, held: Held) -> Size
    ensures { maybe_of result ≡ fit (before + size_in held) }
{
    sum(before, held_len(held)?)
}

// The names of k readings from here on, behind `before` bytes.
fn literal_len(
    column: &[u8],
    bytes: &[u8],
    starts: &[u64],
    lens: &[u64],
    present: &[u8],
    s: Splicing,
    k: usize,
    before: u64,
) -> Size
    requires pairs { Pairs bytes.now starts.now lens.now present.now }
    requires at { At column.now bytes.now starts.now lens.now present.now s }
    requires k_in_bounds { k ≤ length (names_from column.now bytes.now starts.now lens.now present.now s) }
    ensures { maybe_of result ≡ fit (before + length (all_bytes text_e (somes (take k
        (names_from column.now bytes.now starts.now lens.now present.now s))))) }
{
    let mut n = before;
    let mut left = k;
    let mut walk = s;
    while 0 < left {
        n = counted(n, walk.held)?;
        left -= 1;
        walk = stepped(column, bytes, starts, lens, present, walk);
    }
    Some(n)
}

// The stretch here.
fn stretch_len(
    column: &[u8],
    bytes: &[u8],
    starts: &[u64],
    lens: &[u64],
    present: &[u8],
    s: Splicing,
    stretch: StretchEnd,
) -> Size
    requires pairs { Pairs bytes.now starts.now lens.now present.now }
    requires at { At column.now bytes.now starts.now lens.now present.now s }
    requires s_len_bound { length (names_from column.now bytes.now starts.now lens.now present.now s) ≤ limit }
    requires times_nonzero { (0 < s.times) × PresentIn (names_from column.now bytes.now starts.now lens.now present.now s) stretch }
    requires stretch_nonzero { (0 < end_of stretch) × (end_of stretch ≤ length (names_from column.now bytes.now starts.now lens.now present.now s)) }
    ensures { maybe_of result ≡ fit (length (stretch_bytes text_e (stretch_in
        (names_from column.now bytes.now starts.now lens.now present.now s) stretch))) }
{
    let held = s.held;
    match stretch {
        StretchEnd::Absent(k) => Some(
            (leb128_writer::len_i64(0) + leb128_writer::len_u64(k as u64)) as u64,
        ),
        StretchEnd::Repeat(k) => counted(
            leb128_writer::len_i64(given_list::repeat_count(k as u32)) as u64,
            held,
        ),
        StretchEnd::Literal(k) => literal_len(
            column,
            bytes,
            starts,
            lens,
            present,
            s,
            k,
            leb128_writer::len_i64(given_list::literal_count(k as u32)) as u64,
        ),
    }
}

// All stretches.
fn bytes_len(
    column: &[u8],
    bytes: &[u8],
    starts: &[u64],
    lens: &[u64],
    present: &[u8],
    s: Splicing,
) -> Size
    requires pairs { Pairs bytes.now starts.now lens.now present.now }
    requires at { At column.now bytes.now starts.now lens.now present.now s }
    requires s_len_bound { length (names_from column.now bytes.now starts.now lens.now present.now s) ≤ limit }
    ensures { maybe_of result ≡ fit (length (stretches_bytes text_e (stretches same_bytes
        (names_from column.now bytes.now starts.now lens.now present.now s)))) }
{
    let mut n: u64 = 0;
    let mut walk = s;
    while 0 < walk.times {
        let found = stretch_at(column, bytes, starts, lens, present, walk);
        let stretch = found.stretch;
        let m = stretch_len(column, bytes, starts, lens, present, walk, stretch)?;
        n = sum(n, m)?;
        walk = found.walk;
    }
    Some(n)
}

// Is any reading present?
pub(crate) fn any_present(
    column: &[u8],
    bytes: &[u8],
    starts: &[u64],
    lens: &[u64],
    present: &[u8],
    s: Splicing,
) -> bool
    requires pairs { Pairs bytes.now starts.now lens.now present.now }
    requires at { At column.now bytes.now starts.now lens.now present.now s }
    ensures { result ≡ any_present
        (names_from column.now bytes.now starts.now lens.now present.now s) }
{
    let mut walk = s;
    while 0 < walk.times {
        let held = walk.held;
        if !is_absent(held) {
            return true;
        }
        walk = advanced(column, bytes, starts, lens, present, walk);
    }
    false
}

// The column: none where no reading is present.
pub(crate) fn column_len(
    column: &[u8],
    bytes: &[u8],
    starts: &[u64],
    lens: &[u64],
    present: &[u8],
    s: Splicing,
) -> Size
    requires pairs { Pairs bytes.now starts.now lens.now present.now }
    requires at { At column.now bytes.now starts.now lens.now present.now s }
    requires s_len_bound { length (names_from column.now bytes.now starts.now lens.now present.now s) ≤ limit }
    ensures { maybe_of result ≡ fit (length (column_bytes text_e
        (names_from column.now bytes.now starts.now lens.now present.now s))) }
{
    if !any_present(column, bytes, starts, lens, present, s) {
        return Some(0);
    }
    bytes_len(column, bytes, starts, lens, present, s)
}
