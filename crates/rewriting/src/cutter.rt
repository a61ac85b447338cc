// The writer's cut of a list that comes a reading at a time, for its size: nothing is looked at twice, and nothing is kept but some numbers. A value
// is known by where its bytes stand in the column.
ghost use Rattle.std.specs.Prelude.{◌≡◌, ◌+◌, ◌-◌, ◌≤◌, length, Some};
ghost use Rattle.encoding.specs.Ahead.{alike};
ghost use Rattle.encoding.specs.Cases.{answer_of};
ghost use Rattle.encoding.specs.Limit.{limit};
ghost use Rattle.text.specs.Text.{bytes_at, same_bytes};
ghost use Rattle.rewriting.specs.Cutter.{spending, literal_head, absent_run, single_of, several_of, closed_of, fed_of, finished_of};
ghost use Rattle.rewriting.specs.Values.{plain_e, held_in, Within, cut_of, shut_of};

use encoding::Answer;
use refusal::{Refusal, Why};
use runs::walk::Held;

// What is known of the list so far: the bytes spent, or 10; whether a value came; how many values of a literal stretch are open, their bytes spent
// but not their count; and the reading that is held, with how many times it came.
#[derive(Clone, Copy, Debug, PartialEq, Eq)]
pub(crate) struct Cutter {
    pub used: Answer,
    pub any: bool,
    pub literals: u64,
    pub held: Held,
    pub times: u64,
}

// What is open behind a reading that is closed.
#[derive(Clone, Copy, Debug, PartialEq, Eq)]
pub(crate) struct Shut {
    pub used: Answer,
    pub literals: u64,
}

// n bytes more, where there is room for so many in all.
pub(crate) fn spent(room: u64, n: u64, used: Answer) -> Answer
    ensures { answer_of result ≡ spending room n (answer_of used) }
{
    let k = used?;
    if room < k || room - k < n {
        return Err(Refusal(Why::OutputTooShort, 0));
    }
    Ok(k + n)
}

// Are the bytes from a up to b those from c up to d?
fn same_parts(s: &[u8], a: usize, b: usize, c: usize, d: usize) -> bool
    requires { (a ≤ b) × (b ≤ length s.now) × (c ≤ d) × (d ≤ length s.now) }
    ensures { result ≡ same_bytes (bytes_at s.now a (b - a)) (bytes_at s.now c (d - c)) }
{
    text::same_bytes(&s[a..b], &s[c..d])
}

// Is the reading that is held the value from `from` up to `till`?
fn holds_value(s: &[u8], held: Held, from: usize, till: usize) -> bool
    requires { Within s.now held × (from ≤ till) × (till ≤ length s.now) }
    ensures { result ≡ alike plain_e (held_in s.now held) (held_in s.now (Some (from, till))) }
{
    match held {
        None => false,
        Some((a, b)) => same_parts(s, a, b, from, till),
    }
}

// Are two readings alike?
fn same_held(s: &[u8], a: Held, b: Held) -> bool
    requires { Within s.now a × Within s.now b }
    ensures { result ≡ alike plain_e (held_in s.now a) (held_in s.now b) }
{
    match b {
        None => a.is_none(),
        Some((from, till)) => holds_value(s, a, from, till),
    }
}

// The bytes of the count of n literal values: none of none.
fn literal_head(n: u64) -> u64
    requires { n ≤ limit }
    ensures { result ≡ literal_head n }
{
    if n == 0 {
        return 0;
    }
    leb128_writer::len_i64(given_list::literal_count(n as u32)) as u64
}

// The bytes of n absent readings: none of none.
fn absent_run(n: u64) -> u64
    requires { n ≤ limit }
    ensures { result ≡ absent_run n }
{
    if n == 0 {
        return 0;
    }
    (leb128_writer::len_i64(0) + leb128_writer::len_u64(n)) as u64
}

// A value of so many bytes that stands there once: one more of a literal stretch, which ends unless a value follows.
fn single(on: bool, used: Answer, literals: u64, size: u64, room: u64) -> Shut
    requires { literals + 1 ≤ limit }
    ensures { shut_of result ≡ single_of plain_e room on (answer_of used) literals size }
{
    let all = spent(room, size, used);
    if on {
        return Shut {
            used: all,
            literals: literals + 1,
        };
    }
    Shut {
        used: spent(room, literal_head(literals + 1), all),
        literals: 0,
    }
}

// A value of so many bytes that stands there more than once: a run of its own, behind the literal values.
fn several(used: Answer, literals: u64, times: u64, size: u64, room: u64) -> Shut
    requires { (literals ≤ limit) × (times ≤ limit) }
    ensures { shut_of result ≡ several_of plain_e room (answer_of used) literals times size }
{
    let before = spent(room, literal_head(literals), used);
    let count = leb128_writer::len_i64(given_list::repeat_count(times as u32)) as u64;
    let begun = spent(room, count, before);
    Shut {
        used: spent(room, size, begun),
        literals: 0,
    }
}

// The reading that is held is closed: behind it comes another one, a value where `on`, or nothing.
fn closed(s: &[u8], c: Cutter, on: bool, room: u64) -> Shut
    requires { Within s.now c.held × (c.literals + c.times ≤ limit) }
    ensures result_value { shut_of result ≡ closed_of plain_e room on (cut_of s.now c) }
    ensures literals_bound { result.literals ≤ c.literals + c.times }
{
    match c.held {
        None => Shut {
            used: spent(room, absent_run(c.times), c.used),
            literals: 0,
        },
        Some((from, till)) => {
            let size = (till - from) as u64;
            if c.times == 1 {
                return single(on, c.used, c.literals, size, room);
            }
            several(c.used, c.literals, c.times, size, room)
        }
    }
}

// A reading, n times.
pub(crate) fn fed(s: &[u8], c: Cutter, held: Held, n: u64, room: u64) -> Cutter
    requires { Within s.now c.held × Within s.now held × (c.literals + c.times + n ≤ limit) }
    ensures result_value { cut_of s.now result ≡ fed_of plain_e room (cut_of s.now c) (held_in s.now held) n }
    ensures within { Within s.now result.held × (result.literals + result.times ≤ c.literals + c.times + n) }
{
    if n == 0 {
        return c;
    }
    let on = held.is_some();
    if same_held(s, c.held, held) {
        return Cutter {
            used: c.used,
            any: c.any || on,
            literals: c.literals,
            held: c.held,
            times: c.times + n,
        };
    }
    let d = closed(s, c, on, room);
    Cutter {
        used: d.used,
        any: c.any || on,
        literals: d.literals,
        held,
        times: n,
    }
}

// The size, where the list ends here: nothing is written where no value came.
pub(crate) fn finished(s: &[u8], c: Cutter, room: u64) -> Answer
    requires { Within s.now c.held × (c.literals + c.times ≤ limit) }
    ensures { answer_of result ≡ finished_of plain_e room (cut_of s.now c) }
{
    if c.any {
        let d = closed(s, c, false, room);
        return d.used;
    }
    Ok(0)
}
