// Why a column was refused: number and place as the ordinary call has them; the run at fault by its index, the byte where it begins and the count there; the
// index of the reading at fault; and the facts that make the refusal true. In passes over the bytes, whatever the counts say.
#![tactic(auto)]

ghost use Rattle.std.specs.Prelude.{◌≡◌, Ok};
ghost use Rattle.refusal.specs.Number.{number_of};
ghost use Rattle.reason.specs.Cases.{count_of, facts_of, reason_of, told_of};
ghost use Rattle.reason.specs.Columns.{answered, column_reason};
ghost use Rattle.reason.specs.Reason.{integer_reason, delta_reason, boolean_reason, text_reason};
ghost use Rattle.column_reason.specs.Places.{why_of};

mod facts;
mod places;

use crate::facts::{count_at, name_facts, plain_facts, sum_facts, turn_count, turn_facts};
use crate::places::{RunPlace, run_of, turn_of};
use reason::{Count, Facts, Reason, Told};
use refusal::{Refusal, Why};
use runs::Values;

// The reason of a fault behind so many readings, of a run with its count and facts.
fn reason_at(refusal: Refusal, readings: u64, at: RunPlace, count: Count, facts: Facts) -> Reason
    ensures { reason_of result ≡ why_of (number_of refusal.0) refusal.1 readings at (count_of count) (facts_of facts) }
{
    Reason {
        refusal,
        run: at.run,
        begins: at.at,
        count,
        index: readings,
        facts,
    }
}

// The reason of an integer column's fault; a sound one has none.
fn integer_reason(s: &[u8]) -> Option<Reason>
    ensures { told_of (Ok result) ≡ answered (integer_reason s.now) }
{
    let words = rle_decoder::survey(s);
    let refusal = words.fault?;
    let at = run_of(s, Values::Words, words.readings);
    let facts = plain_facts(s, refusal, at);
    Some(reason_at(refusal, words.readings, at, count_at(s, at.at), facts))
}

// The reason of a delta column's fault: its runs are those of its differences.
fn delta_reason(s: &[u8]) -> Option<Reason>
    ensures { told_of (Ok result) ≡ answered (delta_reason s.now) }
{
    let sums = delta_decoder::survey(s);
    let refusal = sums.fault?;
    let at = run_of(s, Values::Differences, sums.readings);
    let facts = sum_facts(s, refusal, at);
    Some(reason_at(refusal, sums.readings, at, count_at(s, at.at), facts))
}

// The reason of a text column's fault.
fn text_reason(s: &[u8]) -> Option<Reason>
    ensures { told_of (Ok result) ≡ answered (text_reason s.now) }
{
    let names = text_decoder::survey(s);
    let refusal = names.fault?;
    let at = run_of(s, Values::Names, names.readings);
    let facts = name_facts(s, refusal, at);
    Some(reason_at(refusal, names.readings, at, count_at(s, at.at), facts))
}

// The reason of a boolean column's fault: a run is one count.
fn boolean_reason(s: &[u8]) -> Option<Reason>
    ensures { told_of (Ok result) ≡ answered (boolean_reason s.now) }
{
    let turns = boolean_decoder::survey(s);
    let refusal = turns.fault?;
    let at = turn_of(s, turns.readings);
    let facts = turn_facts(s, refusal, at);
    Some(reason_at(refusal, turns.readings, at, turn_count(s, at.at), facts))
}

// The reason of a column's fault, by its type; 17 for a type that no call serves.
pub fn column_reason(typ: u8, s: &[u8]) -> Told
    ensures { told_of result ≡ column_reason typ s.now }
{
    if typ == 1 || typ == 2 {
        return Ok(integer_reason(s));
    }
    if typ == 3 {
        return Ok(delta_reason(s));
    }
    if typ == 4 {
        return Ok(boolean_reason(s));
    }
    if typ == 5 {
        return Ok(text_reason(s));
    }
    Err(Refusal(Why::NotServed, 0))
}
