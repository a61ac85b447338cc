// The list that is walked, written as a column.
ghost use Rattle.std.specs.Prelude.{◌≡◌, ◌+◌, ◌≤◌, ◌<◌, length, take};
ghost use Rattle.std.proofs.lemmas.List.Edits.{sets};
ghost use Rattle.leb128.specs.Write.{u64_bytes, i64_bytes};
ghost use Rattle.encoding.specs.Ahead.{end_of, PutAt};
ghost use Rattle.encoding.specs.Limit.{limit};
ghost use Rattle.encoding.specs.Stretches.{stretches};
ghost use Rattle.encoding.specs.Writer.{all_bytes, stretch_bytes, stretches_bytes, column_bytes};
ghost use Rattle.text.specs.Text.{bytes_at, text_bytes, same_bytes, text_e};
ghost use Rattle.encoding.specs.Cuts.{somes, written_in, stretch_in, PresentIn};
ghost use Rattle.text_encoder.specs.Walks.{held_in, Within, At, names_from, Pairs};

use crate::sizes::any_present;
use crate::stretches::stretch_at;
use crate::walk::{Held, Splicing, stepped};
use encoding::StretchEnd;
use refusal::Refusal;

// The numbers of a run where there is room for them; each gives the position behind it.
fn put_number(out: &mut [u8], at: usize, v: u64) -> usize
    requires { at + length (u64_bytes v) ≤ length out.old }
    ensures { PutAt out.old out.new at result (u64_bytes v) }
{
    match leb128_writer::put_u64(v, out, at) {
        Ok(next) => next,
        Err(Refusal(_, place)) => place,
    }
}

fn put_count(out: &mut [u8], at: usize, c: i64) -> usize
    requires { at + length (i64_bytes c) ≤ length out.old }
    ensures { PutAt out.old out.new at result (i64_bytes c) }
{
    match leb128_writer::put_i64(c, out, at) {
        Ok(next) => next,
        Err(Refusal(_, place)) => place,
    }
}

// The n bytes of s from i on.
fn put_bytes(s: &[u8], i: usize, n: usize, out: &mut [u8], at: usize) -> usize
    requires { (i + n ≤ length s.now) × (at + n ≤ length out.old) }
    ensures { PutAt out.old out.new at result (bytes_at s.now i n) }
{
    let mut k: usize = 0;
    while k < n {
        out[at + k] = s[i + k];
        k += 1;
    }
    at + n
}

// The name of n bytes of s from i on.
fn put_name(s: &[u8], i: usize, n: usize, out: &mut [u8], at: usize) -> usize
    requires { (i + n ≤ length s.now) × (at + length (text_bytes (bytes_at s.now i n)) ≤ length out.old) }
    ensures { PutAt out.old out.new at result (text_bytes (bytes_at s.now i n)) }
{
    let q = put_number(out, at, n as u64);
    put_bytes(s, i, n, out, q)
}

// The reading that is held; nothing of an absent one.
fn put_held(column: &[u8], bytes: &[u8], held: Held, out: &mut [u8], at: usize) -> usize
    requires within { Within column.now bytes.now held }
    requires held_in_bounds { at + length (written_in text_e (held_in column.now bytes.now held)) ≤ length out.old }
    ensures { PutAt out.old out.new at result (written_in text_e (held_in column.now bytes.now held)) }
{
    match held {
        Held::Absent => at,
        Held::Old(start, len) => put_name(column, start, len, out, at),
        Held::New(start, len) => put_name(bytes, start, len, out, at),
    }
}

// The names of k readings from here on.
fn put_literal(
    column: &[u8],
    bytes: &[u8],
    starts: &[u64],
    lens: &[u64],
    present: &[u8],
    s: Splicing,
    k: usize,
    out: &mut [u8],
    from: usize,
) -> usize
    requires pairs { Pairs bytes.now starts.now lens.now present.now }
    requires at { At column.now bytes.now starts.now lens.now present.now s }
    requires k_in_bounds { (k ≤ length (names_from column.now bytes.now starts.now lens.now present.now s))
        × (from + length (all_bytes text_e (somes (take k (names_from column.now bytes.now starts.now lens.now present.now s)))) ≤ length out.old) }
    ensures { PutAt out.old out.new from result (all_bytes text_e (somes (take k
        (names_from column.now bytes.now starts.now lens.now present.now s)))) }
{
    let mut at = from;
    let mut left = k;
    let mut walk = s;
    while 0 < left {
        let held = walk.held;
        at = put_held(column, bytes, held, out, at);
        left -= 1;
        walk = stepped(column, bytes, starts, lens, present, walk);
    }
    at
}

// The stretch here.
fn put_stretch(
    column: &[u8],
    bytes: &[u8],
    starts: &[u64],
    lens: &[u64],
    present: &[u8],
    s: Splicing,
    stretch: StretchEnd,
    out: &mut [u8],
    at: usize,
) -> usize
    requires pairs { Pairs bytes.now starts.now lens.now present.now }
    requires at { At column.now bytes.now starts.now lens.now present.now s }
    requires s_len_bound { length (names_from column.now bytes.now starts.now lens.now present.now s) ≤ limit }
    requires times_nonzero { (0 < s.times) × PresentIn (names_from column.now bytes.now starts.now lens.now present.now s) stretch }
    requires stretch_nonzero { (0 < end_of stretch) × (end_of stretch ≤ length (names_from column.now bytes.now starts.now lens.now present.now s)) }
    requires stretch_in_bounds { at + length (stretch_bytes text_e (stretch_in
        (names_from column.now bytes.now starts.now lens.now present.now s) stretch)) ≤ length out.old }
    ensures { PutAt out.old out.new at result (stretch_bytes text_e (stretch_in
        (names_from column.now bytes.now starts.now lens.now present.now s) stretch)) }
{
    let held = s.held;
    match stretch {
        StretchEnd::Absent(k) => {
            let q = put_count(out, at, 0);
            put_number(out, q, k as u64)
        }
        StretchEnd::Repeat(k) => {
            let q = put_count(out, at, given_list::repeat_count(k as u32));
            put_held(column, bytes, held, out, q)
        }
        StretchEnd::Literal(k) => {
            let q = put_count(out, at, given_list::literal_count(k as u32));
            put_literal(column, bytes, starts, lens, present, s, k, out, q)
        }
    }
}

// All stretches.
fn put_all(
    column: &[u8],
    bytes: &[u8],
    starts: &[u64],
    lens: &[u64],
    present: &[u8],
    s: Splicing,
    out: &mut [u8],
)
    requires pairs { Pairs bytes.now starts.now lens.now present.now }
    requires at { At column.now bytes.now starts.now lens.now present.now s }
    requires s_len_bound { length (names_from column.now bytes.now starts.now lens.now present.now s) ≤ limit }
    requires s_in_bounds { length (stretches_bytes text_e (stretches same_bytes
        (names_from column.now bytes.now starts.now lens.now present.now s))) ≤ length out.old }
    ensures { out.new ≡ sets out.old 0 (stretches_bytes text_e (stretches same_bytes
        (names_from column.now bytes.now starts.now lens.now present.now s))) }
{
    let mut at: usize = 0;
    let mut walk = s;
    while 0 < walk.times {
        let found = stretch_at(column, bytes, starts, lens, present, walk);
        let stretch = found.stretch;
        at = put_stretch(column, bytes, starts, lens, present, walk, stretch, out, at);
        walk = found.walk;
    }
}

// The column: nothing where no reading is present.
pub(crate) fn put_column(
    column: &[u8],
    bytes: &[u8],
    starts: &[u64],
    lens: &[u64],
    present: &[u8],
    s: Splicing,
    out: &mut [u8],
)
    requires pairs { Pairs bytes.now starts.now lens.now present.now }
    requires at { At column.now bytes.now starts.now lens.now present.now s }
    requires s_len_bound { length (names_from column.now bytes.now starts.now lens.now present.now s) ≤ limit }
    requires s_in_bounds { length (column_bytes text_e (names_from column.now bytes.now starts.now lens.now present.now s)) ≤ length out.old }
    ensures { out.new ≡ sets out.old 0 (column_bytes text_e
        (names_from column.now bytes.now starts.now lens.now present.now s)) }
{
    if any_present(column, bytes, starts, lens, present, s) {
        put_all(column, bytes, starts, lens, present, s, out);
    }
}
