// A run-length column of optional u64 read a reading at a time, as the crate's RleDecoder, an iterator, reads it: the host keeps a small
// state beside the column's bytes and lends it. No slots and no copy; a call costs the bytes that it passes, whatever the counts say.
#![tactic(auto)]

ghost use Rattle.std.specs.Prelude.{◌≡◌, ◌+◌, ◌≤◌, ◌<◌, length};
ghost use Rattle.leb128.specs.Read.{u64_at};
ghost use Rattle.encoding.specs.Limit.{limit};
ghost use Rattle.cursor.specs.Cursor.{carried, enter, one_literal, one};
ghost use Rattle.rle_decoder.specs.Word.{u64_e};
ghost use Rattle.rle_cursor.specs.Cases.{next_of, answer_of, stepped_of};
ghost use Rattle.rle_cursor.specs.State.{bare_at, new_for, cursor_of, told, step_of};

use encoding::Head;
use refusal::{Refusal, Why};

// The sorts of a run, as a state has them; any number above is LITERAL too.
const ABSENT: u64 = 0;

const REPEAT: u64 = 1;

const LITERAL: u64 = 2;

// The state that the host keeps; any numbers are one.
#[repr(C)]
#[derive(Clone, Copy, Debug, PartialEq, Eq)]
pub struct RleCursor {
    // The length of the column that it was made for.
    pub len: usize,
    // The position of what comes next.
    pub at: usize,
    // How many readings come before the next run.
    pub had: u64,
    // How many readings of the present run are left.
    pub left: u64,
    // What they are: 0 absent, 1 a value that repeats, 2 literal values, each read where it stands.
    pub sort: u64,
    // The value that repeats, and its place; both 0 where none does.
    pub value: u64,
    pub place: usize,
}

// The next reading, a value or none where it is absent; none of both at the end of the column; or a refusal.
pub type RleAnswer = Result<Option<Option<u64>>, Refusal>;

// The state behind a step, and what the step answers.
#[derive(Clone, Copy, Debug, PartialEq, Eq)]
pub struct RleStepped {
    pub cursor: RleCursor,
    pub answer: RleAnswer,
}

// A state that is reached; none where the column is over before it; or its fault there.
type Reached = Result<Option<RleCursor>, Refusal>;

// The state in an absent or a literal run, which carries no value.
fn bare(len: usize, at: usize, had: u64, left: u64, sort: u64) -> RleCursor
    ensures { result ≡ bare_at len at had left sort }
{
    RleCursor {
        len: len,
        at: at,
        had: had,
        left: left,
        sort: sort,
        value: 0,
        place: 0,
    }
}

// The state before the first reading of a column.
pub fn new(column: &[u8]) -> RleCursor
    ensures { result ≡ new_for (length column.now) }
{
    bare(column.len(), 0, 0, 0, ABSENT)
}

// Into a repeated run of c readings behind `had` others, whose value stands at q.
fn carried_at(column: &[u8], q: usize, had: u64, c: u64) -> Reached
    requires { had + c ≤ limit }
    ensures { next_of result ≡ carried had c q (u64_at column.now q) }
{
    let (v, next) = leb128::leb128_u64(column, q)?;
    Ok(Some(RleCursor {
        len: column.len(),
        at: next,
        had: had + c,
        left: c,
        sort: REPEAT,
        value: v,
        place: q,
    }))
}

// Into the run at `at`, before which there are `had` readings.
fn entered_at(column: &[u8], at: usize, had: u64) -> Reached
    ensures { next_of result ≡ enter u64_e column.now at had }
{
    let len = column.len();
    if len <= at {
        return Ok(None);
    }
    match run_head::head_by_bytes(column, at, had)? {
        Head::Repeat(c, q) => carried_at(column, q, had, c),
        Head::Literal(c, q) => Ok(Some(bare(len, q, had + c, c, LITERAL))),
        Head::Absent(c, next) => Ok(Some(bare(len, next, had + c, c, ABSENT))),
    }
}

// The literal value at c, in a call that was lent `lent`.
fn literal_at(column: &[u8], lent: RleCursor, c: RleCursor) -> RleStepped
    requires { 0 < c.left }
    ensures { stepped_of result ≡ told lent (one_literal (cursor_of c) (u64_at column.now c.at)) }
{
    match leb128::leb128_u64(column, c.at) {
        Ok((v, next)) => RleStepped {
            cursor: bare(lent.len, next, c.had, c.left - 1, LITERAL),
            answer: Ok(Some(Some(v))),
        },
        Err(fault) => RleStepped {
            cursor: lent,
            answer: Err(fault),
        },
    }
}

// One reading of the present run of c, in a call that was lent `lent`.
fn one_of(column: &[u8], lent: RleCursor, c: RleCursor) -> RleStepped
    requires { 0 < c.left }
    ensures { stepped_of result ≡ told lent (one u64_e column.now (cursor_of c)) }
{
    if c.sort == ABSENT {
        return RleStepped {
            cursor: bare(lent.len, c.at, c.had, c.left - 1, ABSENT),
            answer: Ok(Some(None)),
        };
    }
    if c.sort == REPEAT {
        let d = RleCursor {
            len: lent.len,
            at: c.at,
            had: c.had,
            left: c.left - 1,
            sort: REPEAT,
            value: c.value,
            place: c.place,
        };
        return RleStepped {
            cursor: d,
            answer: Ok(Some(Some(c.value))),
        };
    }
    literal_at(column, lent, c)
}

// One step, from any state: the next reading, the end or a refusal, and the state behind it. Where nothing is left of the present run the next
// one is entered, and those that add nothing are passed.
pub fn step(column: &[u8], cursor: RleCursor) -> RleStepped
    ensures { stepped_of result ≡ step_of column.now cursor }
{
    if cursor.len != column.len() {
        return RleStepped {
            cursor: cursor,
            answer: Err(Refusal(Why::BadCursor, 0)),
        };
    }
    if column.len() < cursor.at {
        return RleStepped {
            cursor: cursor,
            answer: Err(Refusal(Why::BadCursor, 0)),
        };
    }
    if 0 < cursor.left {
        return one_of(column, cursor, cursor);
    }
    let mut c = cursor;
    while c.left == 0 {
        match entered_at(column, c.at, c.had) {
            Ok(Some(d)) => {
                c = d;
            }
            Ok(None) => {
                return RleStepped {
                    cursor: cursor,
                    answer: Ok(None),
                };
            }
            Err(fault) => {
                return RleStepped {
                    cursor: cursor,
                    answer: Err(fault),
                };
            }
        }
    }
    one_of(column, cursor, c)
}

// The next reading, the end or a refusal; the state is advanced in place.
pub fn next(column: &[u8], cursor: &mut RleCursor) -> RleAnswer
    ensures { (answer_of result ≡ (step_of column.now cursor.old).answer)
        × (cursor.new ≡ (step_of column.now cursor.old).cursor) }
{
    let r = step(column, *cursor);
    *cursor = r.cursor;
    r.answer
}
