// Writing a list of optional i64 as a delta column (the encoder behind the crate's columnar/column_range/delta.rs): the stretches of its
// differences found by looking ahead over the lent list, once for their size and once to write them. No difference is kept: each is taken
// from the last value that was present.
#![tactic(auto)]

ghost use Rattle.std.specs.Prelude.{◌≡◌, true, ◌+◌, ◌-◌, ◌*◌, ◌≤◌, ◌<◌, pos, ◌-ℤ◌, length, get_or};
ghost use Rattle.std.proofs.lemmas.List.Edits.{sets};
ghost use Rattle.std.proofs.Math.Seq.{slice};
ghost use Rattle.leb128.specs.Write.{u64_bytes, i64_bytes};
ghost use Rattle.encoding.specs.Ahead.{bytes_from, end_of, stretch_of, StretchAt, RepeatTo, LiteralTo, Paired, PutAt, AllPresent};
ghost use Rattle.encoding.specs.Cases.{answer_of, maybe_of};
ghost use Rattle.encoding.specs.Given.{slot_list, sized, Encoded};
ghost use Rattle.encoding.specs.Limit.{limit};
ghost use Rattle.encoding.specs.Writer.{all_bytes, stretch_bytes};
ghost use Rattle.delta_encoder.specs.Ahead.{diffs, last_before, Narrow, Near};
ghost use Rattle.delta_decoder.specs.Difference.{same_z, holds, i64_e};
ghost use Rattle.delta_encoder.specs.Differences.{differences, delta_bytes, wide_at, delta_judged};

use delta_decoder::sums::HALF;
use encoding::{Answer, StretchEnd};
use leb128::magnitude;
use refusal::{Refusal, Why};

// What the first difference is taken from.
const ORIGIN: i64 = 0;

// Magnitudes below this are near to 0: two of them together are below HALF.
const QUARTER: u64 = 4611686018427387904;

// Does an i64 hold v - last?
fn is_held(v: i64, last: i64) -> bool
    ensures { result ≡ holds (v -ℤ last) }
{
    let a = magnitude(v);
    let b = magnitude(last);
    if v < 0 {
        if last < 0 {
            return true;
        }
        return a + b < HALF;
    }
    if last < 0 {
        return a + b + 1 < HALF;
    }
    true
}

// Is every value, an absent one too, so near to 0 that an i64 holds the difference of any two? No early way out, so that many are looked at
// at once.
fn are_near(values: &[i64]) -> bool
    ensures { result ≡ true → Near values.now (length values.now) }
{
    let mut near = true;
    let mut k: usize = 0;
    while k < values.len() {
        if QUARTER <= magnitude(values[k]) {
            near = false;
        }
        k += 1;
    }
    near
}

// The index of the first value whose difference no i64 holds.
fn check_width(values: &[i64], present: &[u8]) -> Option<usize>
    requires { length present.now ≡ length values.now }
    ensures { maybe_of result ≡ wide_at 0 (differences (pos 0) (slot_list values.now present.now)) }
{
    if are_near(values) {
        return None;
    }
    let mut last = ORIGIN;
    let mut k: usize = 0;
    while k < values.len() {
        if present[k] != 0 {
            if !is_held(values[k], last) {
                return Some(k);
            }
            last = values[k];
        }
        k += 1;
    }
    None
}

// The index behind the differences that equal the one at i, before which `last` is the last value.
fn repeat_end(values: &[i64], present: &[u8], i: usize, last: i64) -> usize
    requires narrow { Narrow values.now present.now }
    requires i_in_bounds { (i < length values.now) × (get_or present.now i 0 ≡ 0 → ⊥) × (last ≡ last_before values.now present.now i) }
    ensures { RepeatTo same_z (pos 0) (diffs values.now present.now) present.now i result }
{
    let d = values[i] - last;
    let mut k = i + 1;
    while k < values.len() {
        if present[k] == 0 {
            return k;
        }
        if values[k] - values[k - 1] != d {
            return k;
        }
        k += 1;
    }
    k
}

// Does the difference at k, before which `last` is the last value, stand there twice?
fn paired(values: &[i64], present: &[u8], k: usize, last: i64) -> bool
    requires narrow { Narrow values.now present.now }
    requires k_in_bounds { (k < length values.now) × (get_or present.now k 0 ≡ 0 → ⊥) × (last ≡ last_before values.now present.now k) }
    ensures { Paired same_z (pos 0) (diffs values.now present.now) present.now k result }
{
    let n = k + 1;
    if values.len() <= n {
        return false;
    }
    if present[n] == 0 {
        return false;
    }
    if values[n] - values[k] == values[k] - last {
        return true;
    }
    false
}

// The index behind the differences from i on that equal no neighbour.
fn literal_end(values: &[i64], present: &[u8], i: usize) -> usize
    requires narrow { Narrow values.now present.now }
    requires literal_to { LiteralTo same_z (pos 0) (diffs values.now present.now) present.now i (i + 1) }
    requires fact { get_or present.now i 0 ≡ 0 → ⊥ }
    ensures { StretchAt same_z (pos 0) (diffs values.now present.now) present.now i (StretchEnd.Literal result) }
{
    let mut j = i + 1;
    while j < values.len() {
        if present[j] == 0 {
            return j;
        }
        if paired(values, present, j, values[j - 1]) {
            return j;
        }
        j += 1;
    }
    j
}

// The stretch at i, before which `last` is the last value.
fn stretch_at(values: &[i64], present: &[u8], i: usize, last: i64) -> StretchEnd
    requires narrow { Narrow values.now present.now }
    requires i_in_bounds { (i < length values.now) × (last ≡ last_before values.now present.now i) }
    ensures { StretchAt same_z (pos 0) (diffs values.now present.now) present.now i result }
{
    if present[i] == 0 {
        return StretchEnd::Absent(given_list::absent_end(present, i));
    }
    let k = repeat_end(values, present, i, last);
    if 2 <= k - i {
        return StretchEnd::Repeat(k);
    }
    StretchEnd::Literal(literal_end(values, present, i))
}

fn stretch_end(stretch: StretchEnd) -> usize
    ensures { result ≡ end_of stretch }
{
    match stretch {
        StretchEnd::Absent(k) => k,
        StretchEnd::Repeat(k) => k,
        StretchEnd::Literal(k) => k,
    }
}

// The last value behind the stretch at i, before which it is `last`.
fn stretch_last(values: &[i64], present: &[u8], i: usize, stretch: StretchEnd, last: i64) -> i64
    requires present_len { length present.now ≡ length values.now }
    requires last_value { last ≡ last_before values.now present.now i }
    requires stretch_at { StretchAt same_z (pos 0) (diffs values.now present.now) present.now i stretch }
    ensures { result ≡ last_before values.now present.now (end_of stretch) }
{
    let k = stretch_end(stretch);
    if present[k - 1] == 0 {
        return last;
    }
    values[k - 1]
}

// How many bytes the differences from i up to k take, before which `last` is the last value.
fn literal_len(values: &[i64], present: &[u8], i: usize, k: usize, last: i64) -> usize
    requires narrow { Narrow values.now present.now × (length values.now ≤ limit) }
    requires i_le_k { (i ≤ k) × (k ≤ length values.now) × AllPresent present.now i k × (last ≡ last_before values.now present.now i) }
    ensures { (result ≡ length (all_bytes i64_e (slice i k (diffs values.now present.now)))) × (result ≤ 10 * (k - i)) }
{
    let mut n: usize = 0;
    let mut l = last;
    let mut j = i;
    while j < k {
        n += leb128_writer::len_i64(values[j] - l);
        l = values[j];
        j += 1;
    }
    n
}

// How many bytes the stretch at i takes, before which `last` is the last value.
fn stretch_len(values: &[i64], present: &[u8], i: usize, stretch: StretchEnd, last: i64) -> usize
    requires narrow { Narrow values.now present.now × (length values.now ≤ limit) }
    requires last_value { last ≡ last_before values.now present.now i }
    requires stretch_at { StretchAt same_z (pos 0) (diffs values.now present.now) present.now i stretch }
    ensures { result ≡ length (stretch_bytes i64_e (stretch_of (pos 0) (diffs values.now present.now) i stretch)) }
{
    match stretch {
        StretchEnd::Absent(k) => leb128_writer::len_i64(0) + leb128_writer::len_u64((k - i) as u64),
        StretchEnd::Repeat(k) => leb128_writer::len_i64(given_list::repeat_count((k - i) as u32))
            + leb128_writer::len_i64(values[i] - last),
        StretchEnd::Literal(k) => leb128_writer::len_i64(given_list::literal_count((k - i) as u32))
            + literal_len(values, present, i, k, last),
    }
}

// How many bytes a list of which a value is present takes.
fn bytes_len(values: &[i64], present: &[u8]) -> usize
    requires { Narrow values.now present.now × (length values.now ≤ limit) }
    ensures { result ≡ length (bytes_from i64_e (diffs values.now present.now) present.now 0) }
{
    let mut n: usize = 0;
    let mut last = ORIGIN;
    let mut i: usize = 0;
    while i < values.len() {
        let stretch = stretch_at(values, present, i, last);
        n += stretch_len(values, present, i, stretch, last);
        last = stretch_last(values, present, i, stretch, last);
        i = stretch_end(stretch);
    }
    n
}

// How many bytes a list takes whose differences are held: none where no value is present.
fn column_len(values: &[i64], present: &[u8]) -> usize
    requires { Narrow values.now present.now × (length values.now ≤ limit) }
    ensures { result ≡ length (delta_bytes (slot_list values.now present.now)) }
{
    if !given_list::any_present(present) {
        return 0;
    }
    bytes_len(values, present)
}

// Is this a list whose differences are held? Its length, or the refusal.
fn judge(values: &[i64], present: &[u8]) -> Answer
    ensures { answer_of result ≡ delta_judged values.now present.now }
{
    let n = given_list::judge_list(values.len(), present)?;
    match check_width(values, present) {
        Some(i) => Err(Refusal(Why::DifferenceOutside, i)),
        None => Ok(n),
    }
}

// How many bytes a list takes, or why it is refused.
pub fn encoded_len(values: &[i64], present: &[u8]) -> Answer
    ensures { answer_of result ≡ sized (delta_bytes (slot_list values.now present.now))
        (delta_judged values.now present.now) }
{
    judge(values, present)?;
    Ok(column_len(values, present) as u64)
}

// The numbers of a run where there is room for them; each gives the position behind it.
fn put_number(out: &mut [u8], at: usize, v: u64) -> usize
    requires { at + length (u64_bytes v) ≤ length out.old }
    ensures { PutAt out.old out.new at result (u64_bytes v) }
{
    leb128_writer::put_u64(v, out, at).unwrap()
}

fn put_signed(out: &mut [u8], at: usize, x: i64) -> usize
    requires { at + length (i64_bytes x) ≤ length out.old }
    ensures { PutAt out.old out.new at result (i64_bytes x) }
{
    leb128_writer::put_i64(x, out, at).unwrap()
}

// The differences from i up to k, before which `last` is the last value.
fn put_literal(
    values: &[i64],
    present: &[u8],
    i: usize,
    k: usize,
    last: i64,
    out: &mut [u8],
    from: usize,
) -> usize
    requires narrow { Narrow values.now present.now }
    requires i_le_k { (i ≤ k) × (k ≤ length values.now) × AllPresent present.now i k × (last ≡ last_before values.now present.now i) }
    requires present_in_bounds { from + length (all_bytes i64_e (slice i k (diffs values.now present.now))) ≤ length out.old }
    ensures { PutAt out.old out.new from result (all_bytes i64_e (slice i k (diffs values.now present.now))) }
{
    let mut at = from;
    let mut l = last;
    let mut j = i;
    while j < k {
        at = put_signed(out, at, values[j] - l);
        l = values[j];
        j += 1;
    }
    at
}

// The stretch at i, before which `last` is the last value.
fn put_stretch(
    values: &[i64],
    present: &[u8],
    i: usize,
    stretch: StretchEnd,
    last: i64,
    out: &mut [u8],
    at: usize,
) -> usize
    requires narrow { Narrow values.now present.now × (length values.now ≤ limit) }
    requires last_value { last ≡ last_before values.now present.now i }
    requires stretch_at { StretchAt same_z (pos 0) (diffs values.now present.now) present.now i stretch }
    requires stretch_in_bounds { at + length (stretch_bytes i64_e (stretch_of (pos 0) (diffs values.now present.now) i stretch)) ≤ length out.old }
    ensures { PutAt out.old out.new at result
        (stretch_bytes i64_e (stretch_of (pos 0) (diffs values.now present.now) i stretch)) }
{
    match stretch {
        StretchEnd::Absent(k) => {
            let q = put_signed(out, at, 0);
            put_number(out, q, (k - i) as u64)
        }
        StretchEnd::Repeat(k) => {
            let q = put_signed(out, at, given_list::repeat_count((k - i) as u32));
            put_signed(out, q, values[i] - last)
        }
        StretchEnd::Literal(k) => {
            let q = put_signed(out, at, given_list::literal_count((k - i) as u32));
            put_literal(values, present, i, k, last, out, q)
        }
    }
}

// All stretches.
fn put_all(values: &[i64], present: &[u8], out: &mut [u8])
    requires narrow { Narrow values.now present.now × (length values.now ≤ limit) }
    requires present_in_bounds { length (bytes_from i64_e (diffs values.now present.now) present.now 0) ≤ length out.old }
    ensures { out.new ≡ sets out.old 0 (bytes_from i64_e (diffs values.now present.now) present.now 0) }
{
    let mut at: usize = 0;
    let mut last = ORIGIN;
    let mut i: usize = 0;
    while i < values.len() {
        let stretch = stretch_at(values, present, i, last);
        at = put_stretch(values, present, i, stretch, last, out, at);
        last = stretch_last(values, present, i, stretch, last);
        i = stretch_end(stretch);
    }
}

fn put_column(values: &[i64], present: &[u8], out: &mut [u8])
    requires narrow { Narrow values.now present.now × (length values.now ≤ limit) }
    requires present_in_bounds { length (delta_bytes (slot_list values.now present.now)) ≤ length out.old }
    ensures { out.new ≡ sets out.old 0 (delta_bytes (slot_list values.now present.now)) }
{
    if given_list::any_present(present) {
        put_all(values, present, out);
    }
}

// The list as a column, at the front of `out`.
pub fn encode(values: &[i64], present: &[u8], out: &mut [u8]) -> Answer
    ensures { Encoded (delta_bytes (slot_list values.now present.now))
        (delta_judged values.now present.now) out.old out.new (answer_of result) }
{
    let n = encoded_len(values, present)?;
    if n <= out.len() as u64 {
        put_column(values, present, out);
        Ok(n)
    } else {
        Err(Refusal(Why::OutputTooShort, 0))
    }
}
