// How a run of a run-length column begins, the same for every element: its count read, and judged for 5.
#![tactic(auto)]

ghost use Rattle.std.specs.Prelude.{◌≡◌, ◌+◌, ◌≤◌, ◌<◌, leb, nat_abs};
ghost use Rattle.leb128.specs.Got.{got};
ghost use Rattle.leb128.specs.Read.{u64_at};
ghost use Rattle.encoding.specs.Limit.{limit};
ghost use Rattle.encoding.specs.Head.{repeat, literal, judged, absent_head, begun, head_at, head_by};
ghost use Rattle.encoding.specs.Cases.{head_of};

use encoding::{Head, LIMIT};
use refusal::{Refusal, Why};

// May c readings follow `had` others?
fn may_follow(had: u64, c: u64) -> bool
    ensures { result ≡ leb (had + c) limit }
{
    if had <= LIMIT {
        return c <= LIMIT - had;
    }
    false
}

// The second number of an absent run, at q.
fn absent_at(s: &[u8], q: usize, had: u64) -> Result<Head, Refusal>
    ensures { head_of result ≡ absent_head had q (u64_at s.now q) }
{
    let (c, next) = leb128::leb128_u64(s, q)?;
    if may_follow(had, c) {
        return Ok(Head::Absent(c, next));
    }
    Err(Refusal(Why::TooMany, q))
}

// A run of c readings whose count stands at `at`, before q.
fn repeat_at(at: usize, had: u64, c: u64, q: usize) -> Result<Head, Refusal>
    ensures { head_of result ≡ judged had c at (repeat c q) }
{
    if may_follow(had, c) {
        Ok(Head::Repeat(c, q))
    } else {
        Err(Refusal(Why::TooMany, at))
    }
}

fn literal_at(at: usize, had: u64, c: u64, q: usize) -> Result<Head, Refusal>
    ensures { head_of result ≡ judged had c at (literal c q) }
{
    if may_follow(had, c) {
        Ok(Head::Literal(c, q))
    } else {
        Err(Refusal(Why::TooMany, at))
    }
}

// How many readings a signed count announces.
fn count_of(c: i64) -> u64
    ensures { result ≡ nat_abs c }
{
    if c < 0 { !c as u64 + 1 } else { c as u64 }
}

// The run whose signed count c stands at `at`, before q.
fn begun_at(s: &[u8], at: usize, had: u64, c: i64, q: usize) -> Result<Head, Refusal>
    ensures { head_of result ≡ begun s.now at had (got c q) }
{
    if c < 0 {
        return literal_at(at, had, count_of(c), q);
    }
    if c == 0 {
        return absent_at(s, q, had);
    }
    repeat_at(at, had, count_of(c), q)
}

// How the run at `at` begins, before which there are `had` readings.
pub fn head_at(s: &[u8], at: usize, had: u64) -> Result<Head, Refusal>
    ensures { head_of result ≡ head_at s.now at had }
{
    let (c, q) = leb128::leb128_i64(s, at)?;
    begun_at(s, at, had, c, q)
}

// The same by its bytes, for the cursors, which would make the table for each run.
pub fn head_by_bytes(s: &[u8], at: usize, had: u64) -> Result<Head, Refusal>
    ensures { head_of result ≡ head_at s.now at had }
{
    let (c, q) = leb128::i64_by_bytes(s, at)?;
    begun_at(s, at, had, c, q)
}

// The same by a table that is lent: a count of any length.
#[cold]
#[inline(never)]
fn head_far(table: &[i8; 256], s: &[u8], at: usize, had: u64) -> Result<Head, Refusal>
    ensures { head_of result ≡ head_by table.now s.now at had }
{
    let (c, q) = leb128::i64_by(table, s, at)?;
    begun_at(s, at, had, c, q)
}

// No count of one byte passes the limit behind so many readings.
const NEAR: u64 = LIMIT - 256;

// The mark that more bytes follow.
const MORE: i64 = -128;

fn wide(b: u8) -> u64
    ensures { result ≡ b }
{
    b as u64
}

fn place_of(b: u8) -> usize
    ensures { (result ≡ b) × (result < 256) }
{
    b as usize
}

fn number_of(x: i8) -> i64
    ensures { (result ≡ x) × (nat_abs result ≤ 128) }
{
    x as i64
}

// For whoever reads many: counts of one byte in place. What a call answers is made anew: handed on as it is, it would be written where the caller looks for
// the head, which would then be asked for in memory, run by run.
#[inline(always)]
pub fn head_by(table: &[i8; 256], s: &[u8], at: usize, had: u64) -> Result<Head, Refusal>
    ensures { head_of result ≡ head_by table.now s.now at had }
{
    if NEAR < had {
        return Ok(head_far(table, s, at, had)?);
    }
    if at < s.len() {
        let b = place_of(s[at]);
        let x = number_of(table[b]);
        let q = at + 1;
        if x < 0 {
            if x != MORE {
                return Ok(Head::Literal(count_of(x), q));
            }
        } else if x == 0 {
            if q < s.len() {
                let c = s[q];
                if c < 128 {
                    return Ok(Head::Absent(wide(c), q + 1));
                }
            }
        } else {
            return Ok(Head::Repeat(count_of(x), q));
        }
    }
    Ok(head_far(table, s, at, had)?)
}
