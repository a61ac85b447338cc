// The count where a run begins, and the facts that make a refusal true.
ghost use Rattle.std.specs.Prelude.{◌≡◌};
ghost use Rattle.refusal.specs.Number.{number_of};
ghost use Rattle.leb128.specs.Got.{got};
ghost use Rattle.leb128.specs.Read.{u64_at, i64_at};
ghost use Rattle.encoding.specs.Column.{spot};
ghost use Rattle.boolean_decoder.specs.Turns.{turn};
ghost use Rattle.reason.specs.Cases.{count_of, facts_of};
ghost use Rattle.reason.specs.Reason.{signed_count, unsigned_count, second, asked, named, delta, plain_facts, name_facts, sum_facts, turn_facts};

use crate::places::RunPlace;
use leb128::magnitude;
use reason::{Count, Facts};
use refusal::{Refusal, Why};

// A signed count as it is told: of a negative one its size.
fn signed_count(c: i64) -> Count
    ensures { count_of result ≡ signed_count (got c 0) }
{
    let m = magnitude(c);
    if c < 0 {
        return Count::Minus(m + 1);
    }
    Count::Plus(m)
}

// The count at the byte where a run begins.
pub(crate) fn count_at(s: &[u8], at: usize) -> Count
    ensures { count_of result ≡ signed_count (i64_at s.now at) }
{
    match leb128::leb128_i64(s, at) {
        Ok((c, _)) => signed_count(c),
        Err(_) => Count::Unread,
    }
}

// The same of a boolean column, whose counts have no sign.
pub(crate) fn turn_count(s: &[u8], at: usize) -> Count
    ensures { count_of result ≡ unsigned_count (u64_at s.now at) }
{
    match leb128::leb128_u64(s, at) {
        Ok((c, _)) => Count::Plus(c),
        Err(_) => Count::Unread,
    }
}

// The number at q, 0 where none is read.
fn second_at(s: &[u8], q: usize) -> u64
    ensures { result ≡ second (u64_at s.now q) }
{
    match leb128::leb128_u64(s, q) {
        Ok((c, _)) => c,
        Err(_) => 0,
    }
}

// How many readings a count before q asks for: of an absent run its second number.
fn asked_by(s: &[u8], c: i64, q: usize) -> u64
    ensures { result ≡ asked s.now (got c q) }
{
    let m = magnitude(c);
    if c < 0 {
        return m + 1;
    }
    if m == 0 {
        return second_at(s, q);
    }
    m
}

// How many readings the run at a position asks for.
fn asked_at(s: &[u8], at: usize) -> u64
    ensures { result ≡ asked s.now (i64_at s.now at) }
{
    match leb128::leb128_i64(s, at) {
        Ok((c, q)) => asked_by(s, c, q),
        Err(_) => 0,
    }
}

// The facts of an integer column's refusal, in the run that was found.
pub(crate) fn plain_facts(s: &[u8], refusal: Refusal, at: RunPlace) -> Facts
    ensures { facts_of result ≡ plain_facts s.now (number_of refusal.0) refusal.1 (spot at.at at.had) }
{
    match refusal.0 {
        Why::TooMany => Facts::Passes(at.had, asked_at(s, at.at)),
        _ => Facts::Bytes(reason::number_bytes(s, refusal.1)),
    }
}

// Where the number at the place is a name's length that reads, the name is at fault.
fn named_at(s: &[u8], place: usize) -> Facts
    ensures { facts_of result ≡ named s.now place (u64_at s.now place) }
{
    match leb128::leb128_u64(s, place) {
        Ok((n, q)) => Facts::Name(n, (s.len() - q) as u64),
        Err(_) => Facts::Bytes(reason::number_bytes(s, place)),
    }
}

// The facts of a text column's refusal: a name can be at fault in 1 and in 20 alone.
pub(crate) fn name_facts(s: &[u8], refusal: Refusal, at: RunPlace) -> Facts
    ensures { facts_of result ≡ name_facts s.now (number_of refusal.0) refusal.1 (spot at.at at.had) }
{
    match refusal.0 {
        Why::Cut => named_at(s, refusal.1),
        Why::NotUtf8 => named_at(s, refusal.1),
        _ => plain_facts(s, refusal, at),
    }
}

// The delta at a position, 0 where none is read.
fn delta_at(s: &[u8], place: usize) -> i64
    ensures { result ≡ delta (i64_at s.now place) }
{
    match leb128::leb128_i64(s, place) {
        Ok((d, _)) => d,
        Err(_) => 0,
    }
}

// The facts of a delta column's refusal.
pub(crate) fn sum_facts(s: &[u8], refusal: Refusal, at: RunPlace) -> Facts
    ensures { facts_of result ≡ sum_facts s.now (number_of refusal.0) refusal.1 (spot at.at at.had) }
{
    match refusal.0 {
        Why::SumOutside => Facts::Sum(delta_decoder::last_sum(s), delta_at(s, refusal.1)),
        _ => plain_facts(s, refusal, at),
    }
}

// The facts of a boolean column's refusal, of the count that was found.
pub(crate) fn turn_facts(s: &[u8], refusal: Refusal, at: RunPlace) -> Facts
    ensures { facts_of result ≡ turn_facts s.now (number_of refusal.0) refusal.1 (turn at.at at.had 0) }
{
    match refusal.0 {
        Why::TooMany => Facts::Passes(at.had, second_at(s, at.at)),
        _ => Facts::Bytes(reason::number_bytes(s, refusal.1)),
    }
}
