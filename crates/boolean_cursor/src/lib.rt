// A boolean column read a reading at a time, as the crate's BooleanDecoder, an iterator, reads it: the host keeps a small state beside the
// column's bytes and lends it. No slots and no copy; a call costs the bytes that it passes, whatever the counts say.
#![tactic(auto)]

ghost use Rattle.std.specs.Prelude.{◌≡◌, ◌-◌, ◌<◌, length};
ghost use Rattle.leb128.specs.Got.{got};
ghost use Rattle.boolean_cursor.specs.Cases.{next_of, answer_of, stepped_of};
ghost use Rattle.boolean_cursor.specs.State.{new_for, cursor_of, told, step_of};
ghost use Rattle.boolean_cursor.specs.TurnCursor.{byte_of, counting, enter_turn, turn_ready, one_turn};

use encoding::LIMIT;
use refusal::{Refusal, Why};

// The state that the host keeps; any numbers are one.
#[repr(C)]
#[derive(Clone, Copy, Debug, PartialEq, Eq)]
pub struct BooleanCursor {
    // The length of the column that it was made for.
    pub len: usize,
    // The position of the next count.
    pub at: usize,
    // How many readings come before it.
    pub had: u64,
    // How many readings of the present count are left.
    pub left: u64,
    // What they are: 0 false, 1 true; any number above is true.
    pub flag: u64,
}

// The next reading, a byte 0 or 1; none at the end of the column; or a refusal.
pub type BooleanAnswer = Result<Option<u8>, Refusal>;

// The state behind a step, and what the step answers.
#[derive(Clone, Copy, Debug, PartialEq, Eq)]
pub struct BooleanStepped {
    pub cursor: BooleanCursor,
    pub answer: BooleanAnswer,
}

// A state that is reached; none where the column is over before it; or the fault before it.
type Reached = Result<Option<BooleanCursor>, Refusal>;

// The state before the first reading of a column; its first count is of false, the other byte of 1.
pub fn new(column: &[u8]) -> BooleanCursor
    ensures { result ≡ new_for (length column.now) }
{
    BooleanCursor {
        len: column.len(),
        at: 0,
        had: 0,
        left: 0,
        flag: 1,
    }
}

// The other byte.
fn other(flag: u64) -> u64
    ensures { result ≡ 1 - flag }
{
    if flag == 0 { 1 } else { 0 }
}

// The reading that a flag stands for.
fn byte(flag: u64) -> u8
    ensures { result ≡ byte_of flag }
{
    if flag == 0 { 0 } else { 1 }
}

// Into a count c that stands at `at`, before `next`, behind `had` readings and a count of `flag`; it is judged for the limit when read.
fn counted_at(len: usize, at: usize, had: u64, flag: u64, c: u64, next: usize) -> Reached
    ensures { next_of result ≡ counting at had flag (got c next) }
{
    if had <= LIMIT {
        if c <= LIMIT - had {
            return Ok(Some(BooleanCursor {
                len: len,
                at: next,
                had: had + c,
                left: c,
                flag: other(flag),
            }));
        }
    }
    Err(Refusal(Why::TooMany, at))
}

// Into the count at `at`.
fn entered_at(column: &[u8], at: usize, had: u64, flag: u64) -> Reached
    ensures { next_of result ≡ enter_turn column.now at had flag }
{
    let len = column.len();
    if len <= at {
        return Ok(None);
    }
    let (c, next) = leb128::leb128_u64(column, at)?;
    counted_at(len, at, had, flag, c, next)
}

// The first state with a reading left: this one, or one in a later count. Those that add nothing are passed.
fn ready_at(column: &[u8], cursor: BooleanCursor) -> Reached
    ensures { next_of result ≡ turn_ready column.now (cursor_of cursor) }
{
    let mut c = cursor;
    while c.left == 0 {
        match entered_at(column, c.at, c.had, c.flag)? {
            Some(d) => {
                c = d;
            }
            None => {
                return Ok(None);
            }
        }
    }
    Ok(Some(c))
}

// One reading of the present count of c, in a call that was lent `lent`.
fn one_of(lent: BooleanCursor, c: BooleanCursor) -> BooleanStepped
    requires { 0 < c.left }
    ensures { stepped_of result ≡ told lent (one_turn (cursor_of c)) }
{
    let flag = byte(c.flag);
    let d = BooleanCursor {
        len: lent.len,
        at: c.at,
        had: c.had,
        left: c.left - 1,
        flag: c.flag,
    };
    BooleanStepped {
        cursor: d,
        answer: Ok(Some(flag)),
    }
}

// One step, from any state: the next reading, the end or a refusal, and the state behind it. Where something is left of the present count its
// reading is answered at once: what is ready is asked only behind it.
pub fn step(column: &[u8], cursor: BooleanCursor) -> BooleanStepped
    ensures { stepped_of result ≡ step_of column.now cursor }
{
    if cursor.len != column.len() {
        return BooleanStepped {
            cursor: cursor,
            answer: Err(Refusal(Why::BadCursor, 0)),
        };
    }
    if column.len() < cursor.at {
        return BooleanStepped {
            cursor: cursor,
            answer: Err(Refusal(Why::BadCursor, 0)),
        };
    }
    if 0 < cursor.left {
        return one_of(cursor, cursor);
    }
    match ready_at(column, cursor) {
        Ok(Some(c)) => one_of(cursor, c),
        Ok(None) => BooleanStepped {
            cursor: cursor,
            answer: Ok(None),
        },
        Err(e) => BooleanStepped {
            cursor: cursor,
            answer: Err(e),
        },
    }
}

// The next reading, the end or a refusal; the state is advanced in place.
pub fn next(column: &[u8], cursor: &mut BooleanCursor) -> BooleanAnswer
    ensures { (answer_of result ≡ (step_of column.now cursor.old).answer)
        × (cursor.new ≡ (step_of column.now cursor.old).cursor) }
{
    let r = step(column, *cursor);
    *cursor = r.cursor;
    r.answer
}
