// The check of a given list, looking ahead over its presence bytes, and the counts of its runs: the same for every element.
#![tactic(auto)]

ghost use Rattle.std.specs.Prelude.{◌≡◌, ◌+◌, ◌≤◌, pos, drop};
ghost use Rattle.std.proofs.Math.Option.{none};
ghost use Rattle.encoding.specs.Given.{bad_flag, list_judged};
ghost use Rattle.encoding.specs.Flags.{zeros, any_flag, minus};
ghost use Rattle.encoding.specs.Cases.{answer_of, maybe_of};

use encoding::{Answer, LIMIT};
use refusal::{Refusal, Why};

// The largest presence byte, 0 where there is none: no early way out, so that many bytes are looked at at once.
fn largest(present: &[u8]) -> u8
    ensures { result ≤ 1 → bad_flag 0 present.now ≡ none }
{
    let mut most: u8 = 0;
    let mut j: usize = 0;
    while j < present.len() {
        let b = present[j];
        if most < b {
            most = b;
        }
        j += 1;
    }
    most
}

// The first presence byte that is not 0 or 1.
fn check_flags(present: &[u8]) -> Option<usize>
    ensures { maybe_of result ≡ bad_flag 0 present.now }
{
    if largest(present) <= 1 {
        return None;
    }
    let mut k: usize = 0;
    while k < present.len() {
        if present[k] > 1 {
            return Some(k);
        }
        k += 1;
    }
    None
}

// Is this a list: `len` values and as many presence bytes, each 0 or 1, within the limit? Its length, or the refusal.
pub fn judge_list(len: usize, present: &[u8]) -> Answer
    ensures { answer_of result ≡ list_judged len present.now }
{
    if len != present.len() {
        return Err(Refusal(Why::BadList, 0));
    }
    if let Some(i) = check_flags(present) {
        return Err(Refusal(Why::BadList, i));
    }
    if len as u64 <= LIMIT {
        Ok(len as u64)
    } else {
        Err(Refusal(Why::TooMany, 0))
    }
}

// Is any reading present?
pub fn any_present(present: &[u8]) -> bool
    ensures { result ≡ any_flag present.now }
{
    let mut k: usize = 0;
    while k < present.len() {
        if present[k] != 0 {
            return true;
        }
        k += 1;
    }
    false
}

// The index behind the absent readings from i on.
pub fn absent_end(present: &[u8], i: usize) -> usize
    ensures { result ≡ i + zeros (drop i present.now) }
{
    let mut k = i;
    while k < present.len() {
        if present[k] != 0 {
            return k;
        }
        k += 1;
    }
    k
}

// The signed count of a run that repeats a value n times, and of a literal run of n values.
pub fn repeat_count(n: u32) -> i64
    ensures { result ≡ pos n }
{
    n as i64
}

pub fn literal_count(n: u32) -> i64
    ensures { result ≡ minus n }
{
    if n == 0 {
        return 0;
    }
    !((n - 1) as i64)
}
