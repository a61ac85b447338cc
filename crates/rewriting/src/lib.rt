// What a column reads as, written again by our writer: how many bytes that takes, found in one walk over the column, run by run and without slots.
#![tactic(auto)]

ghost use Rattle.std.specs.Prelude.{◌≡◌, ◌+◌, ◌≤◌, ◌<◌, length, take, replicate};
ghost use Rattle.leb128.specs.Answer.{done, within};
ghost use Rattle.leb128.specs.Short.{short};
ghost use Rattle.encoding.specs.Cases.{answer_of, head_of};
ghost use Rattle.encoding.specs.Head.{head_at};
ghost use Rattle.encoding.specs.Limit.{limit};
ghost use Rattle.rewriting.specs.Cutter.{fed_all};
ghost use Rattle.rewriting.specs.Rewritten.{rewritten_as};
ghost use Rattle.runs.specs.Values.{element_of};
ghost use Rattle.rewriting.specs.Values.{plain_e, held_in, Within, Kept, cut_of, owed_from, owed_literals, owed_repeat};

pub mod cutter;
pub mod turns;

use crate::cutter::{Cutter, fed, finished};
use encoding::{Answer, Head};
use refusal::Refusal;
use runs::walk::Held;
use runs::{Values, value_end};

// Behind some readings of a column: the position of the next run, the column's length where none follows, and how many readings came before it.
#[derive(Clone, Copy, Debug, PartialEq, Eq)]
struct Fed {
    cutter: Cutter,
    at: usize,
    had: u64,
}

// n times a reading, but no more than `left`.
fn fed_same(s: &[u8], c: Cutter, held: Held, n: u64, left: u64, room: u64) -> Cutter
    requires { Within s.now c.held × Within s.now held × (c.literals + c.times + n ≤ limit) }
    ensures result_value { cut_of s.now result ≡ fed_all plain_e room (cut_of s.now c) (take left (replicate n (held_in s.now held))) }
    ensures within { Within s.now result.held × (result.literals + result.times ≤ c.literals + c.times + n) }
{
    if left < n {
        return fed(s, c, held, left, room);
    }
    fed(s, c, held, n, room)
}

// The literal values of a run of n, from q on, behind `had` readings: those that can be read, up to the reading `most`.
fn fed_literals(
    s: &[u8],
    values: Values,
    c: Cutter,
    q: usize,
    had: u64,
    n: u64,
    most: u64,
    room: u64,
) -> Fed
    requires n_bound { (had + n ≤ limit) × (q ≤ length s.now) }
    requires kept { Kept s.now c had }
    ensures q_value { fed_all plain_e room (cut_of s.now c) (owed_literals (element_of values).E s.now most (had + n) had q)
        ≡ fed_all plain_e room (cut_of s.now result.cutter) (owed_from (element_of values).E s.now most result.at result.had) }
    ensures kept_2 { Kept s.now result.cutter result.had × (result.had ≤ limit) × (q ≤ result.at) }
{
    let total = had + n;
    let mut cutter = c;
    let mut at = q;
    for i in had..total {
        if most <= i {
            return Fed {
                cutter,
                at: s.len(),
                had: i,
            };
        }
        match value_end(s, values, at) {
            Ok(next) => {
                cutter = fed(s, cutter, Some((at, next)), 1, room);
                at = next;
            }
            Err(_) => {
                return Fed {
                    cutter,
                    at: s.len(),
                    had: i,
                };
            }
        }
    }
    Fed {
        cutter,
        at,
        had: total,
    }
}

// A run of n times the value at q.
fn fed_repeat(
    s: &[u8],
    values: Values,
    c: Cutter,
    q: usize,
    had: u64,
    n: u64,
    most: u64,
    room: u64,
) -> Fed
    requires n_bound { (had + n ≤ limit) × (had ≤ most) × (q ≤ length s.now) }
    requires kept { Kept s.now c had }
    ensures q_value { fed_all plain_e room (cut_of s.now c) (owed_repeat (element_of values).E s.now most n had q)
        ≡ fed_all plain_e room (cut_of s.now result.cutter) (owed_from (element_of values).E s.now most result.at result.had) }
    ensures kept_2 { Kept s.now result.cutter result.had × (result.had ≤ limit) × (q ≤ result.at) }
{
    match value_end(s, values, q) {
        Ok(next) => Fed {
            cutter: fed_same(s, c, Some((q, next)), n, most - had, room),
            at: next,
            had: had + n,
        },
        Err(_) => Fed {
            cutter: c,
            at: s.len(),
            had,
        },
    }
}

// How the run at `at` begins, by the fixed table.
fn head_of(table: &[i8; 256], s: &[u8], at: usize, had: u64) -> Result<Head, Refusal>
    requires { table.now ≡ short }
    ensures { head_of result ≡ head_at s.now at had }
{
    run_head::head_by(table, s, at, had)
}

// The run at `at`, behind `had` readings, up to the reading `most`.
fn fed_run(
    table: &[i8; 256],
    s: &[u8],
    values: Values,
    c: Cutter,
    at: usize,
    had: u64,
    most: u64,
    room: u64,
) -> Fed
    requires at_in_bounds { (at < length s.now) × (had ≤ limit) × (had ≤ most) × (table.now ≡ short) }
    requires kept { Kept s.now c had }
    ensures had_value { fed_all plain_e room (cut_of s.now c) (owed_from (element_of values).E s.now most at had)
        ≡ fed_all plain_e room (cut_of s.now result.cutter) (owed_from (element_of values).E s.now most result.at result.had) }
    ensures kept_2 { Kept s.now result.cutter result.had × (result.had ≤ limit) × (at < result.at) }
{
    match head_of(table, s, at, had) {
        Ok(Head::Repeat(n, q)) => fed_repeat(s, values, c, q, had, n, most, room),
        Ok(Head::Literal(n, q)) => fed_literals(s, values, c, q, had, n, most, room),
        Ok(Head::Absent(n, next)) => Fed {
            cutter: fed_same(s, c, None, n, most - had, room),
            at: next,
            had: had + n,
        },
        Err(_) => Fed {
            cutter: c,
            at: s.len(),
            had,
        },
    }
}

// How many bytes our writer takes for the first `most` readings before a column's first fault; 10 where that is more than `room`.
pub fn rewritten_len(s: &[u8], values: Values, most: u64, room: u64) -> Answer
    ensures { answer_of result ≡ within 10 room (done (length (rewritten_as values s.now most))) }
{
    let table = leb128::short_numbers();
    let mut cutter = Cutter {
        used: Ok(0),
        any: false,
        literals: 0,
        held: None,
        times: 0,
    };
    let mut at: usize = 0;
    let mut had: u64 = 0;
    while at < s.len() {
        if most <= had {
            return finished(s, cutter, room);
        }
        let r = fed_run(&table, s, values, cutter, at, had, most, room);
        cutter = r.cutter;
        at = r.at;
        had = r.had;
    }
    finished(s, cutter, room)
}
