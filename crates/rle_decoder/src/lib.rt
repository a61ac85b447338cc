// Reading a run-length column of optional u64, an Actor or Integer column (the decoder of the crate's columnar/encoding/rle.rs): its
// readings counted in one pass over its bytes, whatever the counts say, or decoded into lent slots.
#![tactic(auto)]

ghost use Rattle.std.specs.Prelude.{◌≡◌, true, ℕ, ◌+◌, ◌-◌, ◌≤◌, ◌<◌, length, get_or, replicate};
ghost use Rattle.std.proofs.lemmas.List.Edits.{sets};
ghost use Rattle.leb128.specs.Read.{u64_at};
ghost use Rattle.leb128.specs.Short.{short};
ghost use Rattle.encoding.specs.Cases.{answer_of, head_of};
ghost use Rattle.encoding.specs.Column.{spot, repeated, literals, run_at, trace};
ghost use Rattle.encoding.specs.Head.{head_at};
ghost use Rattle.encoding.specs.Limit.{limit};
ghost use Rattle.encoding.specs.Slots.{slot_of, flag_of, Decoded, Room, Wrote};
ghost use Rattle.encoding.specs.Survivors.{seen, survey_of, surviving};
ghost use Rattle.encoding.specs.Walk.{outcome};
ghost use Rattle.rle_decoder.specs.Cases.{step_of};
ghost use Rattle.rle_decoder.specs.Word.{u64_e};

use encoding::{Answer, Head, Survey};
use refusal::{Refusal, Why};

// Behind a run: the next position and how many readings came so far; or the run's fault.
type Step = Result<(usize, u64), Refusal>;

// How the run at `at` begins, by the fixed table.
#[inline(always)]
fn head_of(table: &[i8; 256], s: &[u8], at: usize, had: u64) -> Result<Head, Refusal>
    requires { table.now ≡ short }
    ensures { head_of result ≡ head_at s.now at had }
{
    run_head::head_by(table, s, at, had)
}

// A repeated run of c readings, whose value stands at q.
fn scan_repeat(s: &[u8], q: usize, had: u64, c: u64) -> Step
    requires { had + c ≤ limit }
    ensures { step_of result ≡ (repeated had c q (u64_at s.now q)).next }
{
    let (_, behind) = leb128::leb128_u64(s, q)?;
    Ok((behind, had + c))
}

// Are the 16 bytes from k on all numbers of one byte?
fn short_block(s: &[u8], k: usize) -> bool
    requires { k + 16 ≤ length s.now }
    ensures { result ≡ true → (i : ℕ) → i < 16 → get_or s.now (k + i) 0 < 128 }
{
    let mut more: u8 = 0;
    let mut j: usize = 0;
    while j < 16 {
        if 128 <= s[k + j] {
            more = 1;
        }
        j += 1;
    }
    more == 0
}

// Past as many blocks of 16 numbers of one byte as stand from q on, but no more than c numbers.
fn skip_short(s: &[u8], q: usize, c: u64) -> usize
    ensures { (q ≤ result) × (result ≤ q + c)
        × ((total : ℕ) → (literals u64_e s.now total c q).next ≡ (literals u64_e s.now total (c - (result - q)) result).next) }
{
    if s.len() <= q {
        return q;
    }
    let room = s.len() - q;
    let most = if c < room as u64 { c as usize } else { room };
    let mut n: usize = 0;
    while 16 <= most - n {
        if !short_block(s, q + n) {
            return q + n;
        }
        n += 16;
    }
    q + n
}

// c literal values from q on, behind which there are `total` readings. One that cannot be read has the fault of a run of it. No other loop
// calls `end_u64`, so that the compiler builds it into this one.
fn scan_literal(s: &[u8], q: usize, total: u64, c: u64) -> Step
    ensures { step_of result ≡ (literals u64_e s.now total c q).next }
{
    let mut at = skip_short(s, q, c);
    let mut left = c - (at - q) as u64;
    while 0 < left {
        let next = leb128::end_u64(s, at);
        if next == 0 {
            return scan_repeat(s, at, 0, 0);
        }
        at = next;
        left -= 1;
    }
    Ok((at, total))
}

// The run at `at`, before which there are `had` readings.
fn scan_run(table: &[i8; 256], s: &[u8], at: usize, had: u64) -> Step
    requires at_in_bounds { (at < length s.now) × (had ≤ limit) }
    requires table_value { table.now ≡ short }
    ensures { step_of result ≡ (run_at u64_e s.now (spot at had)).next }
{
    match head_of(table, s, at, had)? {
        Head::Repeat(c, q) => scan_repeat(s, q, had, c),
        Head::Literal(c, q) => scan_literal(s, q, had + c, c),
        Head::Absent(c, next) => Ok((next, had + c)),
    }
}

// How many of c literal values from q on can be read, up to the first that cannot.
fn read_literals(s: &[u8], q: usize, c: u64) -> u64
    ensures { result ≡ length (literals u64_e s.now 0 c q).readings }
{
    let mut at = q;
    let mut read: u64 = 0;
    while read < c {
        match leb128::leb128_u64(s, at) {
            Ok((_, next)) => {
                at = next;
                read += 1;
            }
            Err(_) => {
                return read;
            }
        }
    }
    read
}

// How many readings of the run at `at` stand before its fault; all, where it has none.
fn read_run(table: &[i8; 256], s: &[u8], at: usize, had: u64) -> u64
    requires at_in_bounds { (at < length s.now) × (had ≤ limit) }
    requires table_value { table.now ≡ short }
    ensures value { result ≡ length (run_at u64_e s.now (spot at had)).readings }
    ensures result_bound { had + result ≤ limit }
{
    match head_of(table, s, at, had) {
        Ok(Head::Repeat(c, q)) => match leb128::leb128_u64(s, q) {
            Ok(_) => c,
            Err(_) => 0,
        },
        Ok(Head::Literal(c, q)) => read_literals(s, q, c),
        Ok(Head::Absent(c, _)) => c,
        Err(_) => 0,
    }
}

// What survives of a column: how many readings before its first fault, and that fault.
pub fn survey(s: &[u8]) -> Survey
    ensures { seen result ≡ survey_of (trace u64_e s.now) }
{
    let table = leb128::short_numbers();
    let mut at: usize = 0;
    let mut had: u64 = 0;
    while at < s.len() {
        match scan_run(&table, s, at, had) {
            Ok((next, n)) => {
                at = next;
                had = n;
            }
            Err(fault) => {
                let read = read_run(&table, s, at, had);
                return Survey {
                    readings: had + read,
                    fault: Some(fault),
                };
            }
        }
    }
    Survey {
        readings: had,
        fault: None,
    }
}

// How many readings a column has, or its first fault.
pub fn count(s: &[u8]) -> Answer
    ensures { answer_of result ≡ outcome (trace u64_e s.now) }
{
    let found = survey(s);
    match found.fault {
        None => Ok(found.readings),
        Some(fault) => Err(fault),
    }
}

// The same reading in c slots from `from` on.
fn fill_same(values: &mut [u64], present: &mut [u8], from: usize, c: u64, v: u64, p: u8)
    requires { (from + c ≤ length values.old) × (length present.old ≡ length values.old) }
    ensures { (values.new ≡ sets values.old from (replicate c v))
        × (present.new ≡ sets present.old from (replicate c p)) }
{
    let mut i = from;
    let mut left = c;
    while 0 < left {
        values[i] = v;
        present[i] = p;
        i += 1;
        left -= 1;
    }
}

// A repeated run of c readings, whose value stands at q.
fn fill_repeat(s: &[u8], q: usize, had: u64, c: u64, values: &mut [u64], present: &mut [u8]) -> Step
    requires c_bound { had + c ≤ limit }
    requires room { Room (repeated had c q (u64_at s.now q)).readings had values.old present.old }
    ensures result_value { step_of result ≡ (repeated had c q (u64_at s.now q)).next }
    ensures wrote { Wrote (slot_of 0) flag_of (repeated had c q (u64_at s.now q)).readings had
        values.old values.new present.old present.new }
{
    let (v, next) = leb128::leb128_u64(s, q)?;
    fill_same(values, present, had as usize, c, v, 1);
    Ok((next, had + c))
}

// c literal values from q on.
fn fill_literal(
    s: &[u8],
    q: usize,
    total: u64,
    c: u64,
    from: usize,
    values: &mut [u64],
    present: &mut [u8],
) -> Step
    requires { Room (literals u64_e s.now total c q).readings from values.old present.old }
    ensures result_value { step_of result ≡ (literals u64_e s.now total c q).next }
    ensures wrote { Wrote (slot_of 0) flag_of (literals u64_e s.now total c q).readings from
        values.old values.new present.old present.new }
{
    let mut at = q;
    let mut i = from;
    let mut left = c;
    while 0 < left {
        let (word, next) = leb128::leb128_u64(s, at)?;
        values[i] = word;
        present[i] = 1;
        at = next;
        i += 1;
        left -= 1;
    }
    Ok((at, total))
}

// The run at `at`, before which there are `had` readings.
fn fill_run(
    table: &[i8; 256],
    s: &[u8],
    at: usize,
    had: u64,
    values: &mut [u64],
    present: &mut [u8],
) -> Step
    requires at_in_bounds { (at < length s.now) × (had ≤ limit) }
    requires room { Room (run_at u64_e s.now (spot at had)).readings had values.old present.old }
    requires table_value { table.now ≡ short }
    ensures result_value { step_of result ≡ (run_at u64_e s.now (spot at had)).next }
    ensures wrote { Wrote (slot_of 0) flag_of (run_at u64_e s.now (spot at had)).readings had
        values.old values.new present.old present.new }
{
    match head_of(table, s, at, had)? {
        Head::Repeat(c, q) => fill_repeat(s, q, had, c, values, present),
        Head::Literal(c, q) => fill_literal(s, q, had + c, c, had as usize, values, present),
        Head::Absent(c, next) => {
            fill_same(values, present, had as usize, c, 0, 0);
            Ok((next, had + c))
        }
    }
}

// The readings before the first faulty one, into the first slots; and how the column ends.
fn fill(s: &[u8], values: &mut [u64], present: &mut [u8]) -> Answer
    requires { Room (trace u64_e s.now).readings 0 values.old present.old }
    ensures result_value { answer_of result ≡ outcome (trace u64_e s.now) }
    ensures wrote { Wrote (slot_of 0) flag_of (trace u64_e s.now).readings 0
        values.old values.new present.old present.new }
{
    let table = leb128::short_numbers();
    let mut at: usize = 0;
    let mut filled: u64 = 0;
    while at < s.len() {
        let (next, n) = fill_run(&table, s, at, filled, values, present)?;
        at = next;
        filled = n;
    }
    Ok(filled)
}

// The whole column into lent slots.
pub fn decode(s: &[u8], values: &mut [u64], present: &mut [u8]) -> Answer
    ensures { Decoded (trace u64_e s.now) (slot_of 0) flag_of
        values.old values.new present.old present.new (answer_of result) }
{
    if values.len() != present.len() {
        return Err(Refusal(Why::BadList, 0));
    }
    let due = count(s)?;
    if due <= values.len() as u64 {
        return fill(s, values, present);
    }
    Err(Refusal(Why::TooFewSlots, 0))
}

// What survives of a column into lent slots: 8, then 9 where too few are lent for it, else how many readings that is.
pub fn keep(s: &[u8], values: &mut [u64], present: &mut [u8]) -> Answer
    ensures { Decoded (surviving (trace u64_e s.now)) (slot_of 0) flag_of
        values.old values.new present.old present.new (answer_of result) }
{
    if values.len() != present.len() {
        return Err(Refusal(Why::BadList, 0));
    }
    let n = survey(s).readings;
    if n <= values.len() as u64 {
        let _ = fill(s, values, present);
        return Ok(n);
    }
    Err(Refusal(Why::TooFewSlots, 0))
}
