// The pen's log of a tracing session: entries that insert, remove and change readings, replayed over a delta column. It has no counterpart in the
// crate. Whether an entry is good goes by the list's length alone, so one pass judges the whole log before a slot is touched and a second follows it.
#![tactic(auto)]

ghost use Rattle.std.specs.Prelude.{◌≡◌, ◌+◌, ◌≤◌, ◌<◌, length, take};
ghost use Rattle.encoding.specs.Cases.{answer_of};
ghost use Rattle.encoding.specs.Limit.{limit};
ghost use Rattle.splice.specs.Ready.{Good};
ghost use Rattle.pen_log.specs.Cases.{entry_of, told_of};
ghost use Rattle.pen_log.specs.Entry.{word_at, depth_at, entry_at};
ghost use Rattle.pen_log.specs.Entry as spec;
ghost use Rattle.pen_log.specs.Following.{Fits, Applied, Ready, list_in, Followed, Finishes, Judged};
ghost use Rattle.pen_log.specs.Lengths.{judged_from, judged_at, onward_of};
ghost use Rattle.pen_log.specs.Log.{entries};
ghost use Rattle.pen_log.specs.Replay.{Replays};
ghost use Rattle.pen_log.specs.Spans.{Spans};

use delta_decoder::sums::HALF;
use encoding::{Answer, LIMIT};
use refusal::{Refusal, Why};

// An entry: its position, the depth where it has one, and the position of the log behind it.
#[derive(Clone, Copy, Debug, PartialEq, Eq)]
pub enum LogEntry {
    Insert(u32, i64, usize),
    InsertAbsent(u32, usize),
    Remove(u32, usize),
    Change(u32, i64, usize),
}

// How many readings the final list has, and how many bytes were written.
pub type Replayed = Result<(u64, usize), Refusal>;

// An entry as a splice: the readings from start up to end give way to as many new ones as `new` says, none or one.
#[derive(Clone, Copy)]
struct Span {
    start: usize,
    end: usize,
    new: usize,
    value: i64,
    flag: u8,
    next: usize,
}

// Behind an entry: the position in the log, and the list's length.
type Step = Result<(usize, usize), Refusal>;

fn wide(b: u8) -> u64
    ensures { (result ≡ b) × (result < 256) }
{
    b as u64
}

// The number of four bytes, lowest first.
fn word(s: &[u8], at: usize) -> u32
    requires { at + 4 ≤ length s.now }
    ensures { result ≡ word_at s.now at }
{
    (wide(s[at])
        + 256 * wide(s[at + 1])
        + 65536 * wide(s[at + 2])
        + 16777216 * wide(s[at + 3])) as u32
}

// 64 bits in two's complement.
fn signed(n: u64) -> i64
    ensures { result ≡ spec.signed n }
{
    if n < HALF {
        return n as i64;
    }
    !(!n as i64)
}

// The depth of eight bytes, lowest first.
fn depth(s: &[u8], at: usize) -> i64
    requires { at + 8 ≤ length s.now }
    ensures { result ≡ depth_at s.now at }
{
    let low = word(s, at) as u64;
    let high = word(s, at + 4) as u64;
    signed(low + 4294967296 * high)
}

// The entry at a position.
pub fn entry_at(log: &[u8], at: usize) -> Result<LogEntry, Refusal>
    ensures { entry_of result ≡ entry_at log.now at }
{
    if log.len() <= at {
        return Err(Refusal(Why::BadEntry, at));
    }
    let left = log.len() - at;
    if left < 5 {
        return Err(Refusal(Why::BadEntry, at));
    }
    let kind = log[at];
    let i = word(log, at + 1);
    if kind == 2 {
        return Ok(LogEntry::InsertAbsent(i, at + 5));
    }
    if kind == 3 {
        return Ok(LogEntry::Remove(i, at + 5));
    }
    if left < 13 {
        return Err(Refusal(Why::BadEntry, at));
    }
    if kind == 1 {
        return Ok(LogEntry::Insert(i, depth(log, at + 5), at + 13));
    }
    if kind == 4 {
        return Ok(LogEntry::Change(i, depth(log, at + 5), at + 13));
    }
    Err(Refusal(Why::BadEntry, at))
}

fn spanning(i: u32, taken: u8, new: usize, value: i64, flag: u8, next: usize) -> Span
    ensures { result ≡ record { start = i; end = i + taken; new = new; value = value; flag = flag; next = next } }
{
    let start = i as usize;
    Span {
        start: start,
        end: start + taken as usize,
        new: new,
        value: value,
        flag: flag,
        next: next,
    }
}

// The entry at a position, as a splice.
fn span_at(log: &[u8], at: usize) -> Result<Span, Refusal>
    ensures { Spans result (entry_at log.now at) }
{
    let entry = entry_at(log, at)?;
    Ok(match entry {
        LogEntry::Insert(i, x, next) => spanning(i, 0, 1, x, 1, next),
        LogEntry::InsertAbsent(i, next) => spanning(i, 0, 1, 0, 0, next),
        LogEntry::Remove(i, next) => spanning(i, 1, 0, 0, 0, next),
        LogEntry::Change(i, x, next) => spanning(i, 1, 1, x, 1, next),
    })
}

// The entry at a position, over a list of so many readings in so many slots: 23, 5, 9, or how it goes on.
fn judge_entry(log: &[u8], at: usize, len: usize, slots: usize) -> Step
    requires { len ≤ limit }
    ensures { onward_of result ≡ judged_at slots len at (entry_at log.now at) }
{
    let sp = span_at(log, at)?;
    if len < sp.end {
        return Err(Refusal(Why::BadEntry, at));
    }
    let n = sp.start + sp.new + (len - sp.end);
    if (LIMIT as usize) < n {
        return Err(Refusal(Why::TooMany, 0));
    }
    if slots < n {
        return Err(Refusal(Why::TooFewSlots, 0));
    }
    Ok((sp.next, n))
}

// Every entry of the log, over a list of so many readings in so many slots: the final list's length, or the first refusal.
fn judge_log(log: &[u8], old: usize, slots: usize) -> Answer
    requires { old ≤ limit }
    ensures { answer_of result ≡ judged_from slots old (entries log.now) }
{
    let mut at: usize = 0;
    let mut len = old;
    while at < log.len() {
        let (next, n) = judge_entry(log, at, len, slots)?;
        at = next;
        len = n;
    }
    Ok(len as u64)
}

// One entry in slots that hold a list of `len` readings: the new list's length. What is behind the range is moved.
fn apply(values: &mut [i64], present: &mut [u8], len: usize, sp: Span) -> usize
    requires { Fits sp len (length values.old) (length present.old) }
    ensures { Applied sp len values.old values.new present.old present.new result }
{
    let value = [sp.value];
    let flag = [sp.flag];
    let start = sp.start;
    let end = sp.end;
    let new = sp.new;
    let _ = slots::splice(values, len, start, end, &value[..new]);
    let _ = slots::splice(present, len, start, end, &flag[..new]);
    start + new + (len - end)
}

// The whole log, which was judged, in slots that hold the old list: the final list's length.
fn follow(log: &[u8], old: usize, values: &mut [i64], present: &mut [u8]) -> usize
    requires { Ready log.now old values.old present.old }
    ensures { Followed log.now (list_in old values.old present.old) values.old values.new
        present.old present.new result }
{
    let mut at: usize = 0;
    let mut len = old;
    while at < log.len() {
        match span_at(log, at) {
            Ok(sp) => {
                len = apply(values, present, len, sp);
                at = sp.next;
            }
            Err(_) => {
                return len;
            }
        }
    }
    len
}

// The list in the first `len` slots written: 7, 10, or how long the column is.
fn finish(values: &[i64], present: &[u8], len: usize, out: &mut [u8]) -> Replayed
    requires len_in_bounds { (len ≤ length values.now) × (len ≤ length present.now) }
    requires good { Good (length (take len values.now)) (take len present.now) }
    ensures { Finishes (list_in len values.now present.now) out.old out.new (told_of result) }
{
    let size = delta_encoder::encode(&values[..len], &present[..len], out)?;
    Ok((len as u64, size as usize))
}

// A log that was judged, over a column that was counted.
fn replay_good(
    column: &[u8],
    log: &[u8],
    old: usize,
    values: &mut [i64],
    present: &mut [u8],
    out: &mut [u8],
) -> Replayed
    requires { Judged column.now log.now old (length values.old) (length present.old) }
    ensures { Replays column.now log.now values.old values.new
        present.old present.new out.old out.new (told_of result) }
{
    let _ = delta_decoder::decode(column, values, present);
    let len = follow(log, old, values, present);
    finish(values, present, len, out)
}

// The log replayed over a column, which is written anew once. Refusals, in this order: 8; column faults; 9 for the old list; entry by entry 23, 5 and
// 9; 7; 10.
pub fn replay(
    column: &[u8],
    log: &[u8],
    values: &mut [i64],
    present: &mut [u8],
    out: &mut [u8],
) -> Replayed
    ensures { Replays column.now log.now values.old values.new
        present.old present.new out.old out.new (told_of result) }
{
    if values.len() != present.len() {
        return Err(Refusal(Why::BadList, 0));
    }
    let old = delta_decoder::count(column)?;
    if (values.len() as u64) < old {
        return Err(Refusal(Why::TooFewSlots, 0));
    }
    judge_log(log, old as usize, values.len())?;
    replay_good(column, log, old as usize, values, present, out)
}
