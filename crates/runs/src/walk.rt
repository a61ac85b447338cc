// A run-length column walked a piece at a time, without slots and whatever its values are. A piece is a reading and how many times it stands there at
// once, so that time goes by the bytes and not by the counts. At a fault the walk ends, as the readings do.
ghost use Rattle.std.specs.Prelude.{◌≡◌, ◌+◌, ◌-◌, ◌≤◌, ◌<◌, length};
ghost use Rattle.encoding.specs.Column.{repeated, literals};
ghost use Rattle.encoding.specs.Limit.{limit};
ghost use Rattle.runs.specs.Values.{element_of};
ghost use Rattle.runs.specs.Pieces.{AbsentIf, before_run, values_in, list_from, rest_of, list_of, Onto, Going};

use crate::{Values, value_end};
use encoding::Head;

// A reading: a value by the position where its bytes begin in the column and the one up to which they stand; none where it is absent.
pub type Held = Option<(usize, usize)>;

// Where one stands: a reading that is held and how many times it stands here, 0 at the end. Behind it come so many literal values (`left`) from `at` on,
// and then the run before which there are `had` readings.
#[derive(Clone, Copy, Debug, PartialEq, Eq)]
pub struct Piece {
    pub held: Held,
    pub times: u64,
    pub at: usize,
    pub had: u64,
    pub left: u64,
}

// Is a reading absent?
pub fn is_absent(held: Held) -> bool
    ensures { AbsentIf held result }
{
    held.is_none()
}

// No reading is held: what comes is the run at a position.
fn before_run(at: usize, had: u64) -> Piece
    ensures { result ≡ before_run at had }
{
    Piece {
        held: None,
        times: 0,
        at,
        had,
        left: 0,
    }
}

// Of n literal values, the one at q; `total` readings come before the next run.
fn literal_at(s: &[u8], values: Values, q: usize, total: u64, n: u64) -> Piece
    ensures onto { Onto (element_of values).E s.now (values_in (element_of values).E s.now
        (literals (element_of values).E s.now total n q)) result }
    ensures at_in_bounds { length s.now - result.at ≤ length s.now - q }
{
    if n == 0 {
        return before_run(q, total);
    }
    match value_end(s, values, q) {
        Ok(next) => Piece {
            held: Some((q, next)),
            times: 1,
            at: next,
            had: total,
            left: n - 1,
        },
        Err(_) => before_run(s.len(), total),
    }
}

// The run that repeats the value at q so many times, behind `had` readings.
fn repeat_at(s: &[u8], values: Values, q: usize, had: u64, n: u64) -> Piece
    requires { had + n ≤ limit }
    ensures onto { Onto (element_of values).E s.now (values_in (element_of values).E s.now
        (repeated had n q ((element_of values).E.read s.now q))) result }
    ensures at_in_bounds { length s.now - result.at ≤ length s.now - q }
{
    match value_end(s, values, q) {
        Ok(next) => Piece {
            held: Some((q, next)),
            times: n,
            at: next,
            had: had + n,
            left: 0,
        },
        Err(_) => before_run(s.len(), had),
    }
}

// Into the run at a position, before which there are `had` readings: its first piece, with no reading where the run has none.
fn entered(s: &[u8], values: Values, at: usize, had: u64) -> Piece
    requires { at < length s.now }
    ensures onto { Onto (element_of values).E s.now (list_from (element_of values).E s.now at had) result }
    ensures at_in_bounds { length s.now - result.at < length s.now - at }
{
    match run_head::head_at(s, at, had) {
        Ok(Head::Repeat(n, q)) => repeat_at(s, values, q, had, n),
        Ok(Head::Literal(n, q)) => literal_at(s, values, q, had + n, n),
        Ok(Head::Absent(n, next)) => Piece {
            held: None,
            times: n,
            at: next,
            had: had + n,
            left: 0,
        },
        Err(_) => before_run(s.len(), had),
    }
}

// The next piece: what was held is passed, and so are runs without a reading.
pub fn advanced(s: &[u8], values: Values, p: Piece) -> Piece
    ensures going { Going (element_of values).E s.now result }
    ensures result_value { list_of (element_of values).E s.now result ≡ rest_of (element_of values).E s.now p }
{
    let mut r = literal_at(s, values, p.at, p.had, p.left);
    while r.times == 0 {
        if s.len() <= r.at {
            return r;
        }
        r = entered(s, values, r.at, r.had);
    }
    r
}

// The first piece from the run at a position on.
pub fn first(s: &[u8], values: Values, at: usize, had: u64) -> Piece
    ensures going { Going (element_of values).E s.now result }
    ensures result_value { list_of (element_of values).E s.now result ≡ list_from (element_of values).E s.now at had }
{
    advanced(s, values, before_run(at, had))
}
