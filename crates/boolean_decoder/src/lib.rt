// Reading a Boolean column (the decoder of the crate's columnar/encoding/boolean.rs): its readings counted in one pass over its bytes,
// whatever the counts say, or decoded into lent slots.
#![tactic(auto)]

ghost use Rattle.std.specs.Prelude.{◌≡◌, ◌-◌, ◌≤◌, ◌<◌, length, replicate};
ghost use Rattle.std.proofs.lemmas.List.Edits.{sets};
ghost use Rattle.leb128.specs.Got.{got};
ghost use Rattle.encoding.specs.Cases.{answer_of};
ghost use Rattle.encoding.specs.Limit.{limit};
ghost use Rattle.encoding.specs.Survivors.{survey_of, surviving, seen};
ghost use Rattle.encoding.specs.Walk.{outcome};
ghost use Rattle.boolean_decoder.specs.Cases.{step_of};
ghost use Rattle.boolean_decoder.specs.Decoded.{Decoded};
ghost use Rattle.boolean_decoder.specs.Turns.{turn, counted, turn_at, bool_trace};

use encoding::{Answer, LIMIT, Survey};
use refusal::{Refusal, Why};

// Behind a count: the next position, how many readings came so far, and the byte that is counted next; or the count's fault.
type Step = Result<(usize, u64, u8), Refusal>;

// The count c of readings `flag`, which stands at `at`, before `next`; it is judged for the limit when read.
fn counted_at(at: usize, had: u64, flag: u8, c: u64, next: usize) -> Step
    requires { (had ≤ limit) × (flag ≤ 1) }
    ensures { step_of result ≡ (counted (turn at had flag) (got c next)).next }
{
    if c <= LIMIT - had {
        let n = had + c;
        let other = 1 - flag;
        Ok((next, n, other))
    } else {
        Err(Refusal(Why::TooMany, at))
    }
}

// The count at `at`, of so many readings `flag`.
fn turn_at(s: &[u8], at: usize, had: u64, flag: u8) -> Step
    requires { (at < length s.now) × (had ≤ limit) × (flag ≤ 1) }
    ensures { step_of result ≡ (turn_at s.now (turn at had flag)).next }
{
    let (c, next) = leb128::leb128_u64(s, at)?;
    counted_at(at, had, flag, c, next)
}

// What survives of a column: how many readings before its first fault, and that fault. A count at fault has none.
pub fn survey(s: &[u8]) -> Survey
    ensures { seen result ≡ survey_of (bool_trace s.now) }
{
    let mut at: usize = 0;
    let mut had: u64 = 0;
    let mut flag: u8 = 0;
    while at < s.len() {
        match turn_at(s, at, had, flag) {
            Ok((next, n, f)) => {
                at = next;
                had = n;
                flag = f;
            }
            Err(e) => {
                return Survey {
                    readings: had,
                    fault: Some(e),
                };
            }
        }
    }
    Survey {
        readings: had,
        fault: None,
    }
}

// How many readings a column has, or its first fault.
pub fn count(s: &[u8]) -> Answer
    ensures { answer_of result ≡ outcome (bool_trace s.now) }
{
    let found = survey(s);
    match found.fault {
        None => Ok(found.readings),
        Some(e) => Err(e),
    }
}

// The same byte in the slots from `from` up to `to`.
fn fill_same(values: &mut [u8], from: usize, to: usize, flag: u8)
    requires { (from ≤ to) × (to ≤ length values.old) }
    ensures { values.new ≡ sets values.old from (replicate (to - from) flag) }
{
    let mut i = from;
    while i < to {
        values[i] = flag;
        i += 1;
    }
}

// The readings before the first faulty one, into the first slots; and how the column ends.
fn fill(s: &[u8], values: &mut [u8]) -> Answer
    requires { length (bool_trace s.now).readings ≤ length values.old }
    ensures result_value { answer_of result ≡ outcome (bool_trace s.now) }
    ensures values_after { values.new ≡ sets values.old 0 (bool_trace s.now).readings }
{
    let mut at: usize = 0;
    let mut had: u64 = 0;
    let mut flag: u8 = 0;
    while at < s.len() {
        let (next, n, f) = turn_at(s, at, had, flag)?;
        fill_same(values, had as usize, n as usize, flag);
        at = next;
        had = n;
        flag = f;
    }
    Ok(had)
}

// The whole column into lent slots.
pub fn decode(s: &[u8], values: &mut [u8]) -> Answer
    ensures { Decoded (bool_trace s.now) values.old values.new (answer_of result) }
{
    let n = count(s)?;
    if (values.len() as u64) < n {
        return Err(Refusal(Why::TooFewSlots, 0));
    }
    fill(s, values)
}

// What survives of a column into lent slots: 9 where too few are lent for it, else how many readings that is.
pub fn keep(s: &[u8], values: &mut [u8]) -> Answer
    ensures { Decoded (surviving (bool_trace s.now)) values.old values.new (answer_of result) }
{
    let n = survey(s).readings;
    if n <= values.len() as u64 {
        let _ = fill(s, values);
        return Ok(n);
    }
    Err(Refusal(Why::TooFewSlots, 0))
}
