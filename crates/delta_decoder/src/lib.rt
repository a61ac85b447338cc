// Reading a delta column, optional i64 as the run-length column of their differences (the decoder behind the crate's
// columnar/column_range/delta.rs): its readings counted in one pass over its bytes, whatever the counts say, or decoded into lent slots.
#![tactic(auto)]

ghost use Rattle.std.specs.Prelude.{◌≡◌, ◌+◌, ◌≤◌, ◌<◌, pos, length, replicate};
ghost use Rattle.std.proofs.Math.Option.{some};
ghost use Rattle.std.proofs.lemmas.List.Edits.{sets};
ghost use Rattle.leb128.specs.Cases.{parsed_of};
ghost use Rattle.leb128.specs.Got.{got};
ghost use Rattle.leb128.specs.Read.{i64_at};
ghost use Rattle.leb128.specs.Short.{short};
ghost use Rattle.encoding.specs.Cases.{answer_of, head_of};
ghost use Rattle.encoding.specs.Column.{repeated, literals};
ghost use Rattle.encoding.specs.Head.{head_at};
ghost use Rattle.encoding.specs.Limit.{limit};
ghost use Rattle.encoding.specs.Slots.{slot_of, flag_of, Decoded, Room, Wrote};
ghost use Rattle.encoding.specs.Survivors.{seen, survey_of, surviving};
ghost use Rattle.encoding.specs.Walk.{outcome};
ghost use Rattle.delta_decoder.specs.Cases.{step_of};
ghost use Rattle.delta_decoder.specs.Difference.{i64_e};
ghost use Rattle.delta_decoder.specs.Sofar.{sum_of, plus_times, times_held, sofar, summing, delta_run};
ghost use Rattle.delta_decoder.specs.Sums.{delta_trace, last_sum};

mod added;
pub mod sums;

use crate::added::{add_at, add_near};
use crate::sums::{HALF, add, add_times, sum_of, times_held};
use encoding::{Answer, Head, Survey};
use leb128::Parsed;
use refusal::{Refusal, Why};

// Behind a run: the next position, how many readings came so far, and their sum; or the run's fault.
type Step = Result<(usize, u64, u64), Refusal>;

// How the run at `at` begins, by the fixed table.
#[inline(always)]
fn head_of(table: &[i8; 256], s: &[u8], at: usize, had: u64) -> Result<Head, Refusal>
    requires { table.now ≡ short }
    ensures { head_of result ≡ head_at s.now at had }
{
    run_head::head_by(table, s, at, had)
}

// The difference at `at`, by the fixed table.
fn difference(table: &[i8; 256], s: &[u8], at: usize) -> Parsed<i64>
    requires { table.now ≡ short }
    ensures { parsed_of result ≡ i64_at s.now at }
{
    leb128::i64_by(table, s, at)
}

// A repeated run of c differences, whose value stands at q, on the sum n.
fn scan_repeat(table: &[i8; 256], s: &[u8], q: usize, had: u64, c: u64, n: u64) -> Step
    requires c_bound { had + c ≤ limit }
    requires table_value { table.now ≡ short }
    ensures { step_of result ≡ (summing n (repeated had c q (i64_at s.now q))).next }
{
    let (d, next) = difference(table, s, q)?;
    match add_times(n, d, c) {
        Some(m) => Ok((next, had + c, m)),
        None => Err(Refusal(Why::SumOutside, q)),
    }
}

// c literal differences from q on, behind which there are `total` readings, on the sum `sum`.
fn scan_literal(table: &[i8; 256], s: &[u8], q: usize, total: u64, c: u64, sum: u64) -> Step
    requires { table.now ≡ short }
    ensures { step_of result ≡ (summing sum (literals i64_e s.now total c q)).next }
{
    let mut at = q;
    let mut left = c;
    let mut n = sum;
    while 0 < left {
        match add_near(table, s, at, n) {
            Some((m, next)) => {
                at = next;
                left -= 1;
                n = m;
            }
            None => {
                let (m, next) = add_at(table, s, at, n)?;
                at = next;
                left -= 1;
                n = m;
            }
        }
    }
    Ok((at, total, n))
}

// The run at `at`, before which there are `had` readings and the sum n.
fn scan_run(table: &[i8; 256], s: &[u8], at: usize, had: u64, n: u64) -> Step
    requires at_in_bounds { (at < length s.now) × (had ≤ limit) }
    requires table_value { table.now ≡ short }
    ensures { step_of result ≡ (delta_run s.now (sofar at had n)).next }
{
    match head_of(table, s, at, had)? {
        Head::Repeat(c, q) => scan_repeat(table, s, q, had, c, n),
        Head::Literal(c, q) => scan_literal(table, s, q, had + c, c, n),
        Head::Absent(c, next) => Ok((next, had + c, n)),
    }
}

// How many of c literal differences from q on can be read and added to the sum `sum`, up to the first that cannot.
fn read_literals(table: &[i8; 256], s: &[u8], q: usize, c: u64, sum: u64) -> u64
    requires { table.now ≡ short }
    ensures { result ≡ length (summing sum (literals i64_e s.now 0 c q)).readings }
{
    let mut at = q;
    let mut read: u64 = 0;
    let mut n = sum;
    while read < c {
        let Ok((d, next)) = difference(table, s, at) else {
            return read;
        };
        let Some(m) = add(n, d) else {
            return read;
        };
        at = next;
        read += 1;
        n = m;
    }
    read
}

// How many readings of the run at `at` stand before its fault; all, where it has none.
fn read_run(table: &[i8; 256], s: &[u8], at: usize, had: u64, n: u64) -> u64
    requires at_in_bounds { (at < length s.now) × (had ≤ limit) }
    requires table_value { table.now ≡ short }
    ensures value { result ≡ length (delta_run s.now (sofar at had n)).readings }
    ensures result_bound { had + result ≤ limit }
{
    match head_of(table, s, at, had) {
        Ok(Head::Repeat(c, q)) => match difference(table, s, q) {
            Ok((d, _)) => times_held(n, d, c),
            Err(_) => 0,
        },
        Ok(Head::Literal(c, q)) => read_literals(table, s, q, c, n),
        Ok(Head::Absent(c, _)) => c,
        Err(_) => 0,
    }
}

// What survives of a column: how many readings before its first fault, and that fault.
pub fn survey(s: &[u8]) -> Survey
    ensures { seen result ≡ survey_of (delta_trace s.now) }
{
    let table = leb128::short_numbers();
    let mut at: usize = 0;
    let mut had: u64 = 0;
    let mut n: u64 = HALF;
    while at < s.len() {
        match scan_run(&table, s, at, had, n) {
            Ok((next, h, m)) => {
                at = next;
                had = h;
                n = m;
            }
            Err(fault) => {
                let read = read_run(&table, s, at, had, n);
                return Survey {
                    readings: had + read,
                    fault: Some(fault),
                };
            }
        }
    }
    Survey {
        readings: had,
        fault: None,
    }
}

// How many readings a column has, or its first fault.
pub fn count(s: &[u8]) -> Answer
    ensures { answer_of result ≡ outcome (delta_trace s.now) }
{
    let found = survey(s);
    match found.fault {
        Some(fault) => Err(fault),
        None => Ok(found.readings),
    }
}

// The sum behind c literal differences from q on, on the sum `sum`, up to the first that cannot be read or added.
fn literals_sum(s: &[u8], q: usize, c: u64, sum: u64) -> u64
    ensures { sum_of result ≡ last_sum (sum_of sum) (summing sum (literals i64_e s.now 0 c q)).readings }
{
    let mut at = q;
    let mut left = c;
    let mut n = sum;
    while 0 < left {
        let Ok((d, next)) = leb128::leb128_i64(s, at) else {
            return n;
        };
        let Some(m) = add(n, d) else {
            return n;
        };
        at = next;
        left -= 1;
        n = m;
    }
    n
}

// The sum behind as many of c times a difference as can be added to the sum n.
fn repeat_sum(n: u64, d: i64, c: u64) -> u64
    ensures { plus_times n d (times_held n d c) ≡ some result }
{
    match add_times(n, d, times_held(n, d, c)) {
        Some(m) => m,
        None => n,
    }
}

// The sum behind the readings of the run at `at` that stand before its fault, on the sum n.
fn run_sum(s: &[u8], at: usize, had: u64, n: u64) -> u64
    requires { at < length s.now }
    ensures { sum_of result ≡ last_sum (sum_of n) (delta_run s.now (sofar at had n)).readings }
{
    match run_head::head_at(s, at, had) {
        Ok(Head::Repeat(c, q)) => match leb128::leb128_i64(s, q) {
            Ok((d, _)) => repeat_sum(n, d, c),
            Err(_) => n,
        },
        Ok(Head::Literal(c, q)) => literals_sum(s, q, c, n),
        Ok(Head::Absent(_, _)) => n,
        Err(_) => n,
    }
}

// The sum behind the readings before a column's first fault.
pub fn last_sum(s: &[u8]) -> i64
    ensures { result ≡ last_sum (pos 0) (delta_trace s.now).readings }
{
    let table = leb128::short_numbers();
    let mut at: usize = 0;
    let mut had: u64 = 0;
    let mut n: u64 = HALF;
    while at < s.len() {
        let Ok((next, h, m)) = scan_run(&table, s, at, had, n) else {
            return sum_of(run_sum(s, at, had, n));
        };
        at = next;
        had = h;
        n = m;
    }
    sum_of(n)
}

// c absent readings in the slots from `from` on.
fn fill_absent(values: &mut [i64], present: &mut [u8], from: usize, c: u64)
    requires { (from + c ≤ length values.old) × (length present.old ≡ length values.old) }
    ensures { (values.new ≡ sets values.old from (replicate c (pos 0)))
        × (present.new ≡ sets present.old from (replicate c 0)) }
{
    let mut i = from;
    let mut left = c;
    while 0 < left {
        values[i] = 0;
        present[i] = 0;
        i += 1;
        left -= 1;
    }
}

// A repeated run of c differences d that stands at q, on the sum `sum`, before the position `next`.
fn fill_sums(
    d: i64,
    q: usize,
    next: usize,
    had: u64,
    c: u64,
    sum: u64,
    values: &mut [i64],
    present: &mut [u8],
) -> Step
    requires c_bound { had + c ≤ limit }
    requires room { Room (summing sum (repeated had c q (got d next))).readings had values.old present.old }
    ensures result_value { step_of result ≡ (summing sum (repeated had c q (got d next))).next }
    ensures wrote { Wrote (slot_of (pos 0)) flag_of (summing sum (repeated had c q (got d next))).readings had
        values.old values.new present.old present.new }
{
    let mut i = had as usize;
    let mut left = c;
    let mut n = sum;
    while 0 < left {
        let Some(m) = add(n, d) else {
            return Err(Refusal(Why::SumOutside, q));
        };
        values[i] = sum_of(m);
        present[i] = 1;
        i += 1;
        left -= 1;
        n = m;
    }
    Ok((next, had + c, n))
}

// A repeated run of c differences, whose value stands at q, on the sum n.
fn fill_repeat(
    table: &[i8; 256],
    s: &[u8],
    q: usize,
    had: u64,
    c: u64,
    n: u64,
    values: &mut [i64],
    present: &mut [u8],
) -> Step
    requires c_bound { had + c ≤ limit }
    requires room { Room (summing n (repeated had c q (i64_at s.now q))).readings had values.old present.old }
    requires table_value { table.now ≡ short }
    ensures result_value { step_of result ≡ (summing n (repeated had c q (i64_at s.now q))).next }
    ensures wrote { Wrote (slot_of (pos 0)) flag_of (summing n (repeated had c q (i64_at s.now q))).readings had
        values.old values.new present.old present.new }
{
    let (d, next) = difference(table, s, q)?;
    fill_sums(d, q, next, had, c, n, values, present)
}

// c literal differences from q on, on the sum `sum`.
fn fill_literal(
    table: &[i8; 256],
    s: &[u8],
    q: usize,
    total: u64,
    c: u64,
    from: usize,
    sum: u64,
    values: &mut [i64],
    present: &mut [u8],
) -> Step
    requires room { Room (summing sum (literals i64_e s.now total c q)).readings from values.old present.old }
    requires table_value { table.now ≡ short }
    ensures result_value { step_of result ≡ (summing sum (literals i64_e s.now total c q)).next }
    ensures wrote { Wrote (slot_of (pos 0)) flag_of (summing sum (literals i64_e s.now total c q)).readings from
        values.old values.new present.old present.new }
{
    let mut at = q;
    let mut i = from;
    let mut left = c;
    let mut n = sum;
    while 0 < left {
        match add_near(table, s, at, n) {
            Some((m, next)) => {
                values[i] = sum_of(m);
                present[i] = 1;
                at = next;
                i += 1;
                left -= 1;
                n = m;
            }
            None => {
                let (m, next) = add_at(table, s, at, n)?;
                values[i] = sum_of(m);
                present[i] = 1;
                at = next;
                i += 1;
                left -= 1;
                n = m;
            }
        }
    }
    Ok((at, total, n))
}

// The run at `at`, before which there are `had` readings and the sum n.
fn fill_run(
    table: &[i8; 256],
    s: &[u8],
    at: usize,
    had: u64,
    n: u64,
    values: &mut [i64],
    present: &mut [u8],
) -> Step
    requires at_in_bounds { (at < length s.now) × (had ≤ limit) }
    requires room { Room (delta_run s.now (sofar at had n)).readings had values.old present.old }
    requires table_value { table.now ≡ short }
    ensures result_value { step_of result ≡ (delta_run s.now (sofar at had n)).next }
    ensures wrote { Wrote (slot_of (pos 0)) flag_of (delta_run s.now (sofar at had n)).readings had
        values.old values.new present.old present.new }
{
    match head_of(table, s, at, had)? {
        Head::Repeat(c, q) => fill_repeat(table, s, q, had, c, n, values, present),
        Head::Literal(c, q) => fill_literal(
            table,
            s,
            q,
            had + c,
            c,
            had as usize,
            n,
            values,
            present,
        ),
        Head::Absent(c, next) => {
            fill_absent(values, present, had as usize, c);
            Ok((next, had + c, n))
        }
    }
}

// The readings before the first faulty one, into the first slots; and how the column ends.
fn fill(s: &[u8], values: &mut [i64], present: &mut [u8]) -> Answer
    requires { Room (delta_trace s.now).readings 0 values.old present.old }
    ensures result_value { answer_of result ≡ outcome (delta_trace s.now) }
    ensures wrote { Wrote (slot_of (pos 0)) flag_of (delta_trace s.now).readings 0
        values.old values.new present.old present.new }
{
    let table = leb128::short_numbers();
    let mut at: usize = 0;
    let mut had: u64 = 0;
    let mut n: u64 = HALF;
    while at < s.len() {
        let (next, h, m) = fill_run(&table, s, at, had, n, values, present)?;
        at = next;
        had = h;
        n = m;
    }
    Ok(had)
}

// The whole column into lent slots.
pub fn decode(s: &[u8], values: &mut [i64], present: &mut [u8]) -> Answer
    ensures { Decoded (delta_trace s.now) (slot_of (pos 0)) flag_of
        values.old values.new present.old present.new (answer_of result) }
{
    if values.len() != present.len() {
        return Err(Refusal(Why::BadList, 0));
    }
    let found = survey(s);
    if let Some(fault) = found.fault {
        return Err(fault);
    }
    if found.readings <= values.len() as u64 {
        fill(s, values, present)
    } else {
        Err(Refusal(Why::TooFewSlots, 0))
    }
}

// What survives of a column into lent slots: 8, then 9 where too few are lent for it, else how many readings that is.
pub fn keep(s: &[u8], values: &mut [i64], present: &mut [u8]) -> Answer
    ensures { Decoded (surviving (delta_trace s.now)) (slot_of (pos 0)) flag_of
        values.old values.new present.old present.new (answer_of result) }
{
    if values.len() != present.len() {
        return Err(Refusal(Why::BadList, 0));
    }
    let n = survey(s).readings;
    if n <= values.len() as u64 {
        // Its answer is the column's fault, which is none of this call's.
        let _ = fill(s, values, present);
        return Ok(n);
    }
    Err(Refusal(Why::TooFewSlots, 0))
}
