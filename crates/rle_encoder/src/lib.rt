// Writing a list of optional u64 as a run-length column (the encoder of the crate's columnar/encoding/rle.rs): its stretches found by
// looking ahead over the lent list, once for their size and once to write them.
#![tactic(auto)]

ghost use Rattle.std.specs.Prelude.{◌≡◌, ◌+◌, ◌-◌, ◌*◌, ◌≤◌, ◌<◌, eqb, length, get_or};
ghost use Rattle.std.proofs.lemmas.List.Edits.{sets};
ghost use Rattle.std.proofs.Math.Seq.{slice};
ghost use Rattle.leb128.specs.Write.{u64_bytes, i64_bytes};
ghost use Rattle.encoding.specs.Ahead.{bytes_from, end_of, stretch_of, StretchAt, RepeatTo, LiteralTo, Paired, PutAt};
ghost use Rattle.encoding.specs.Cases.{answer_of};
ghost use Rattle.encoding.specs.Given.{slot_list, list_judged, sized, Encoded};
ghost use Rattle.encoding.specs.Limit.{limit};
ghost use Rattle.encoding.specs.Writer.{all_bytes, stretch_bytes, column_bytes};
ghost use Rattle.rle_decoder.specs.Word.{u64_e};

use encoding::{Answer, StretchEnd};
use refusal::{Refusal, Why};

// The index behind the values that equal the one at i.
fn repeat_end(values: &[u64], present: &[u8], i: usize) -> usize
    requires { (i < length values.now) × (length present.now ≡ length values.now) × (get_or present.now i 0 ≡ 0 → ⊥) }
    ensures { RepeatTo eqb 0 values.now present.now i result }
{
    let a = values[i];
    let mut k = i + 1;
    while k < values.len() {
        if present[k] == 0 {
            return k;
        }
        if values[k] != a {
            return k;
        }
        k += 1;
    }
    k
}

// Does the value at k stand there twice?
fn paired(values: &[u64], present: &[u8], k: usize) -> bool
    requires { (k < length values.now) × (length present.now ≡ length values.now) × (get_or present.now k 0 ≡ 0 → ⊥) }
    ensures { Paired eqb 0 values.now present.now k result }
{
    let n = k + 1;
    if values.len() <= n {
        return false;
    }
    if present[n] == 0 {
        return false;
    }
    if values[n] == values[k] {
        return true;
    }
    false
}

// The index behind the values from i on that equal no neighbour.
fn literal_end(values: &[u64], present: &[u8], i: usize) -> usize
    requires literal_to { LiteralTo eqb 0 values.now present.now i (i + 1) }
    requires present_len { length present.now ≡ length values.now }
    ensures { StretchAt eqb 0 values.now present.now i (StretchEnd.Literal result) }
{
    let mut j = i + 1;
    while j < values.len() {
        if present[j] == 0 {
            return j;
        }
        if paired(values, present, j) {
            return j;
        }
        j += 1;
    }
    j
}

// The stretch at i.
fn stretch_at(values: &[u64], present: &[u8], i: usize) -> StretchEnd
    requires { (i < length values.now) × (length present.now ≡ length values.now) }
    ensures { StretchAt eqb 0 values.now present.now i result }
{
    if present[i] == 0 {
        return StretchEnd::Absent(given_list::absent_end(present, i));
    }
    let k = repeat_end(values, present, i);
    if 2 <= k - i {
        return StretchEnd::Repeat(k);
    }
    StretchEnd::Literal(literal_end(values, present, i))
}

fn stretch_end(stretch: StretchEnd) -> usize
    ensures { result ≡ end_of stretch }
{
    match stretch {
        StretchEnd::Absent(k) => k,
        StretchEnd::Repeat(k) => k,
        StretchEnd::Literal(k) => k,
    }
}

// How many bytes the values from i up to k take.
fn literal_len(values: &[u64], i: usize, k: usize) -> usize
    requires { (i ≤ k) × (k ≤ length values.now) × (length values.now ≤ limit) }
    ensures { (result ≡ length (all_bytes u64_e (slice i k values.now))) × (result ≤ 10 * (k - i)) }
{
    let mut n: usize = 0;
    let mut j = i;
    while j < k {
        n += leb128_writer::len_u64(values[j]);
        j += 1;
    }
    n
}

// How many bytes the stretch at i takes.
fn stretch_len(values: &[u64], i: usize, stretch: StretchEnd) -> usize
    requires { (i < end_of stretch) × (end_of stretch ≤ length values.now) × (length values.now ≤ limit) }
    ensures { result ≡ length (stretch_bytes u64_e (stretch_of 0 values.now i stretch)) }
{
    match stretch {
        StretchEnd::Absent(k) => leb128_writer::len_i64(0) + leb128_writer::len_u64((k - i) as u64),
        StretchEnd::Repeat(k) => leb128_writer::len_i64(given_list::repeat_count((k - i) as u32))
            + leb128_writer::len_u64(values[i]),
        StretchEnd::Literal(k) => leb128_writer::len_i64(given_list::literal_count((k - i) as u32))
            + literal_len(values, i, k),
    }
}

// How many bytes a list of which a value is present takes.
fn bytes_len(values: &[u64], present: &[u8]) -> usize
    requires { (length present.now ≡ length values.now) × (length values.now ≤ limit) }
    ensures { result ≡ length (bytes_from u64_e values.now present.now 0) }
{
    let mut n: usize = 0;
    let mut i: usize = 0;
    while i < values.len() {
        let stretch = stretch_at(values, present, i);
        n += stretch_len(values, i, stretch);
        i = stretch_end(stretch);
    }
    n
}

// How many bytes a list within the limit takes: none where no value is present.
fn column_len(values: &[u64], present: &[u8]) -> usize
    requires { (length present.now ≡ length values.now) × (length values.now ≤ limit) }
    ensures { result ≡ length (column_bytes u64_e (slot_list values.now present.now)) }
{
    if !given_list::any_present(present) {
        return 0;
    }
    bytes_len(values, present)
}

// How many bytes a list takes, or why it is refused.
pub fn encoded_len(values: &[u64], present: &[u8]) -> Answer
    ensures { answer_of result ≡ sized (column_bytes u64_e (slot_list values.now present.now))
        (list_judged (length values.now) present.now) }
{
    given_list::judge_list(values.len(), present)?;
    Ok(column_len(values, present) as u64)
}

// The numbers of a run where there is room for them; each gives the position behind it.
fn put_number(out: &mut [u8], at: usize, v: u64) -> usize
    requires { at + length (u64_bytes v) ≤ length out.old }
    ensures { PutAt out.old out.new at result (u64_bytes v) }
{
    match leb128_writer::put_u64(v, out, at) {
        Ok(next) => next,
        Err(Refusal(_, place)) => place,
    }
}

fn put_count(out: &mut [u8], at: usize, c: i64) -> usize
    requires { at + length (i64_bytes c) ≤ length out.old }
    ensures { PutAt out.old out.new at result (i64_bytes c) }
{
    match leb128_writer::put_i64(c, out, at) {
        Ok(next) => next,
        Err(Refusal(_, place)) => place,
    }
}

// The values from i up to k.
fn put_literal(values: &[u64], i: usize, k: usize, out: &mut [u8], from: usize) -> usize
    requires { (i ≤ k) × (k ≤ length values.now) × (from + length (all_bytes u64_e (slice i k values.now)) ≤ length out.old) }
    ensures { PutAt out.old out.new from result (all_bytes u64_e (slice i k values.now)) }
{
    let mut at = from;
    let mut j = i;
    while j < k {
        at = put_number(out, at, values[j]);
        j += 1;
    }
    at
}

// The stretch at i.
fn put_stretch(values: &[u64], i: usize, stretch: StretchEnd, out: &mut [u8], at: usize) -> usize
    requires i_bound { (i < end_of stretch) × (end_of stretch ≤ length values.now) × (length values.now ≤ limit) }
    requires stretch_in_bounds { at + length (stretch_bytes u64_e (stretch_of 0 values.now i stretch)) ≤ length out.old }
    ensures { PutAt out.old out.new at result (stretch_bytes u64_e (stretch_of 0 values.now i stretch)) }
{
    match stretch {
        StretchEnd::Absent(k) => {
            let q = put_count(out, at, 0);
            put_number(out, q, (k - i) as u64)
        }
        StretchEnd::Repeat(k) => {
            let q = put_count(out, at, given_list::repeat_count((k - i) as u32));
            put_number(out, q, values[i])
        }
        StretchEnd::Literal(k) => {
            let q = put_count(out, at, given_list::literal_count((k - i) as u32));
            put_literal(values, i, k, out, q)
        }
    }
}

// All stretches.
fn put_all(values: &[u64], present: &[u8], out: &mut [u8])
    requires present_len { (length present.now ≡ length values.now) × (length values.now ≤ limit) }
    requires present_in_bounds { length (bytes_from u64_e values.now present.now 0) ≤ length out.old }
    ensures { out.new ≡ sets out.old 0 (bytes_from u64_e values.now present.now 0) }
{
    let mut at: usize = 0;
    let mut i: usize = 0;
    while i < values.len() {
        let stretch = stretch_at(values, present, i);
        at = put_stretch(values, i, stretch, out, at);
        i = stretch_end(stretch);
    }
}

fn put_column(values: &[u64], present: &[u8], out: &mut [u8])
    requires present_len { (length present.now ≡ length values.now) × (length values.now ≤ limit) }
    requires present_in_bounds { length (column_bytes u64_e (slot_list values.now present.now)) ≤ length out.old }
    ensures { out.new ≡ sets out.old 0 (column_bytes u64_e (slot_list values.now present.now)) }
{
    if given_list::any_present(present) {
        put_all(values, present, out);
    }
}

// The list as a column, at the front of `out`.
pub fn encode(values: &[u64], present: &[u8], out: &mut [u8]) -> Answer
    ensures { Encoded (column_bytes u64_e (slot_list values.now present.now))
        (list_judged (length values.now) present.now) out.old out.new (answer_of result) }
{
    let n = encoded_len(values, present)?;
    if n <= out.len() as u64 {
        put_column(values, present, out);
        return Ok(n);
    }
    Err(Refusal(Why::OutputTooShort, 0))
}
