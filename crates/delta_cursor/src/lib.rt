// A delta column read a reading at a time, as the decoder behind the crate's columnar/column_range/delta.rs, an iterator, reads it: the host
// keeps a small state beside the column's bytes and lends it. No slots and no copy; a call costs the bytes that it passes, whatever the counts
// say.
#![tactic(auto)]

ghost use Rattle.std.specs.Prelude.{◌≡◌, ◌+◌, ◌≤◌, ◌<◌, ◌+ℤ◌, length};
ghost use Rattle.leb128.specs.Read.{i64_at};
ghost use Rattle.encoding.specs.Cases.{maybe_of};
ghost use Rattle.encoding.specs.Limit.{limit};
ghost use Rattle.cursor.specs.Cursor.{carried, enter, one_literal, one};
ghost use Rattle.delta_decoder.specs.Difference.{holds, i64_e};
ghost use Rattle.delta_decoder.specs.Sums.{held_sum};
ghost use Rattle.delta_cursor.specs.Cases.{differences_in, differences_of, next_of, one_repeat, answer_of, stepped_of};
ghost use Rattle.delta_cursor.specs.State.{bare_at, new_for, told, step_of};
ghost use Rattle.delta_cursor.specs.SumCursor.{add_step};

use encoding::Head;
use leb128::magnitude;
use refusal::{Refusal, Why};

const HALF: u64 = 9223372036854775808;

// The sorts of a run, as a state has them: numbers and no enum, for the C interface; any number above is LITERAL too.
const ABSENT: u64 = 0;

const REPEAT: u64 = 1;

const LITERAL: u64 = 2;

// The state that the host keeps; any numbers are one.
#[repr(C)]
#[derive(Clone, Copy, Debug, PartialEq, Eq)]
pub struct DeltaCursor {
    // The length of the column that it was made for.
    pub len: usize,
    // The position of what comes next.
    pub at: usize,
    // How many readings come before the next run.
    pub had: u64,
    // How many readings of the present run are left.
    pub left: u64,
    // What they are: 0 absent, 1 sums of a difference that repeats, 2 sums of literal differences, each read where it stands.
    pub sort: u64,
    // The difference that repeats, and its place; both 0 where none does.
    pub difference: i64,
    pub place: usize,
    // The sum so far: the last reading that was present, 0 before the first.
    pub sum: i64,
}

// The next reading, a value or none where it is absent; none of both at the end of the column; or a refusal.
pub type DeltaAnswer = Result<Option<Option<i64>>, Refusal>;

// The state behind a step, and what the step answers.
#[derive(Clone, Copy, Debug, PartialEq, Eq)]
pub struct DeltaStepped {
    pub cursor: DeltaCursor,
    pub answer: DeltaAnswer,
}

// A state's numbers but for the length and the sum.
#[derive(Clone, Copy, Debug, PartialEq, Eq)]
struct Differences {
    at: usize,
    had: u64,
    left: u64,
    sort: u64,
    difference: i64,
    place: usize,
}

// Where it comes to; none where the column is over before that; or its fault there.
type Reached = Result<Option<Differences>, Refusal>;

// The state in an absent or a literal run, which carries no difference.
fn bare(len: usize, at: usize, had: u64, left: u64, sort: u64, sum: i64) -> DeltaCursor
    ensures { result ≡ bare_at len at had left sort sum }
{
    DeltaCursor {
        len: len,
        at: at,
        had: had,
        left: left,
        sort: sort,
        difference: 0,
        place: 0,
        sum: sum,
    }
}

// The state before the first reading of a column.
pub fn new(column: &[u8]) -> DeltaCursor
    ensures { result ≡ new_for (length column.now) }
{
    bare(column.len(), 0, 0, 0, ABSENT, 0)
}

// Where a state stands in the differences.
fn within(cursor: DeltaCursor) -> Differences
    ensures { result ≡ differences_in cursor }
{
    Differences {
        at: cursor.at,
        had: cursor.had,
        left: cursor.left,
        sort: cursor.sort,
        difference: cursor.difference,
        place: cursor.place,
    }
}

// Into a repeated run of c readings behind `had` others, whose difference stands at q.
fn carried_at(column: &[u8], q: usize, had: u64, c: u64) -> Reached
    requires { had + c ≤ limit }
    ensures { next_of result ≡ carried had c q (i64_at column.now q) }
{
    let (d, next) = leb128::i64_by_bytes(column, q)?;
    Ok(Some(Differences {
        at: next,
        had: had + c,
        left: c,
        sort: REPEAT,
        difference: d,
        place: q,
    }))
}

// Into the run at `at`, before which there are `had` readings.
fn entered_at(column: &[u8], at: usize, had: u64) -> Reached
    ensures { next_of result ≡ enter i64_e column.now at had }
{
    if column.len() <= at {
        return Ok(None);
    }
    match run_head::head_by_bytes(column, at, had)? {
        Head::Repeat(c, q) => carried_at(column, q, had, c),
        Head::Literal(c, q) => Ok(Some(Differences {
            at: q,
            had: had + c,
            left: c,
            sort: LITERAL,
            difference: 0,
            place: 0,
        })),
        Head::Absent(c, next) => Ok(Some(Differences {
            at: next,
            had: had + c,
            left: c,
            sort: ABSENT,
            difference: 0,
            place: 0,
        })),
    }
}

// Does an i64 hold z + d?
fn is_held(z: i64, d: i64) -> bool
    ensures { result ≡ holds (z +ℤ d) }
{
    let a = magnitude(z);
    let b = magnitude(d);
    if z < 0 {
        if d < 0 {
            return a + b + 1 < HALF;
        }
        return true;
    }
    if d < 0 {
        return true;
    }
    a + b < HALF
}

// The sum z + d, where an i64 holds it.
fn add(z: i64, d: i64) -> Option<i64>
    ensures { maybe_of result ≡ held_sum z d }
{
    if is_held(z, d) { Some(z + d) } else { None }
}

// The literal difference at c, in a call that was lent `lent`.
fn literal_at(column: &[u8], lent: DeltaCursor, c: Differences) -> DeltaStepped
    requires { 0 < c.left }
    ensures { stepped_of result ≡ told lent (add_step lent.sum (one_literal (differences_of c) (i64_at column.now c.at))) }
{
    match leb128::i64_by_bytes(column, c.at) {
        Ok((d, next)) => match add(lent.sum, d) {
            Some(z) => DeltaStepped {
                cursor: bare(lent.len, next, c.had, c.left - 1, LITERAL, z),
                answer: Ok(Some(Some(z))),
            },
            None => DeltaStepped {
                cursor: lent,
                answer: Err(Refusal(Why::SumOutside, c.at)),
            },
        },
        Err(fault) => DeltaStepped {
            cursor: lent,
            answer: Err(fault),
        },
    }
}

// The difference that repeats at c.
fn repeat_at(lent: DeltaCursor, c: Differences) -> DeltaStepped
    requires { 0 < c.left }
    ensures { stepped_of result ≡ told lent (add_step lent.sum (one_repeat c)) }
{
    match add(lent.sum, c.difference) {
        Some(z) => {
            let d = DeltaCursor {
                len: lent.len,
                at: c.at,
                had: c.had,
                left: c.left - 1,
                sort: REPEAT,
                difference: c.difference,
                place: c.place,
                sum: z,
            };
            DeltaStepped {
                cursor: d,
                answer: Ok(Some(Some(z))),
            }
        }
        None => DeltaStepped {
            cursor: lent,
            answer: Err(Refusal(Why::SumOutside, c.place)),
        },
    }
}

// One reading of the present run of c, in a call that was lent `lent`.
fn one_of(column: &[u8], lent: DeltaCursor, c: Differences) -> DeltaStepped
    requires { 0 < c.left }
    ensures { stepped_of result ≡ told lent (add_step lent.sum (one i64_e column.now (differences_of c))) }
{
    if c.sort == ABSENT {
        return DeltaStepped {
            cursor: bare(lent.len, c.at, c.had, c.left - 1, ABSENT, lent.sum),
            answer: Ok(Some(None)),
        };
    }
    if c.sort == REPEAT {
        return repeat_at(lent, c);
    }
    literal_at(column, lent, c)
}

// One step, from any state: the next reading, the end or a refusal, and the state behind it. Where nothing is left of the present run the next
// one is entered, and those that add nothing are passed.
pub fn step(column: &[u8], cursor: DeltaCursor) -> DeltaStepped
    ensures { stepped_of result ≡ step_of column.now cursor }
{
    if cursor.len != column.len() {
        return DeltaStepped {
            cursor: cursor,
            answer: Err(Refusal(Why::BadCursor, 0)),
        };
    }
    if column.len() < cursor.at {
        return DeltaStepped {
            cursor: cursor,
            answer: Err(Refusal(Why::BadCursor, 0)),
        };
    }
    let mut c = within(cursor);
    while c.left == 0 {
        match entered_at(column, c.at, c.had) {
            Ok(Some(d)) => {
                c = d;
            }
            Ok(None) => {
                return DeltaStepped {
                    cursor: cursor,
                    answer: Ok(None),
                };
            }
            Err(fault) => {
                return DeltaStepped {
                    cursor: cursor,
                    answer: Err(fault),
                };
            }
        }
    }
    one_of(column, cursor, c)
}

// The next reading, the end or a refusal; the state is advanced in place.
pub fn next(column: &[u8], cursor: &mut DeltaCursor) -> DeltaAnswer
    ensures { (answer_of result ≡ (step_of column.now cursor.old).answer)
        × (cursor.new ≡ (step_of column.now cursor.old).cursor) }
{
    let r = step(column, *cursor);
    *cursor = r.cursor;
    r.answer
}
