// The writer's next stretch of the list that is walked, found by looking ahead with copies of the walk.
ghost use Rattle.std.specs.Prelude.{◌≡◌, Some, suc, ◌-◌, ◌≤◌, ◌<◌, length};
ghost use Rattle.encoding.specs.Limit.{limit};
ghost use Rattle.text.specs.Text.{bytes_at, same_bytes};
ghost use Rattle.runs.specs.Values.{element_of};
ghost use Rattle.encoding.specs.Ahead.{alike};
ghost use Rattle.encoding.specs.Cuts.{SameRun, LoneRun};
ghost use Rattle.rle_form.specs.Ahead.{Found};
ghost use Rattle.runs.specs.Pieces.{held_in, Within, list_of, Going};

use encoding::StretchEnd;
use runs::Values;
use runs::walk::{Held, Piece, advanced, is_absent};

// So many readings, and the piece behind them.
#[derive(Clone, Copy, Debug, PartialEq, Eq)]
struct Passed {
    count: u64,
    piece: Piece,
}

// Are the bytes from a up to b those from c up to d?
fn same_parts(s: &[u8], a: usize, b: usize, c: usize, d: usize) -> bool
    requires { (a ≤ b) × (b ≤ length s.now) × (c ≤ d) × (d ≤ length s.now) }
    ensures { result ≡ same_bytes (bytes_at s.now a (b - a)) (bytes_at s.now c (d - c)) }
{
    text::same_bytes(&s[a..b], &s[c..d])
}

// Is the reading that is held the value from `from` up to `till`? Our encoding is the only one that is read, so values are equal where their bytes are.
fn holds_value(s: &[u8], values: Values, held: Held, from: usize, till: usize) -> bool
    requires { Within (element_of values).E s.now held × Within (element_of values).E s.now (Some (from, till)) }
    ensures { result ≡ alike (element_of values).E (held_in (element_of values).E s.now held)
        (held_in (element_of values).E s.now (Some (from, till))) }
{
    match held {
        None => false,
        Some((a, b)) => same_parts(s, a, b, from, till),
    }
}

// Are two readings alike?
fn same_held(s: &[u8], values: Values, a: Held, b: Held) -> bool
    requires { Within (element_of values).E s.now a × Within (element_of values).E s.now b }
    ensures { result ≡ alike (element_of values).E (held_in (element_of values).E s.now a)
        (held_in (element_of values).E s.now b) }
{
    match b {
        None => is_absent(a),
        Some((from, till)) => holds_value(s, values, a, from, till),
    }
}

// The readings from here on that are like the one here.
fn same_run(s: &[u8], values: Values, p: Piece) -> Passed
    requires { Going (element_of values).E s.now p × (0 < p.times) × (length (list_of (element_of values).E s.now p) ≤ limit) }
    ensures going { Going (element_of values).E s.now result.piece }
    ensures same_run { SameRun (element_of values).E (held_in (element_of values).E s.now p.held)
        (list_of (element_of values).E s.now p) result.count (list_of (element_of values).E s.now result.piece) }
{
    let held = p.held;
    let mut count = p.times;
    let mut here = advanced(s, values, p);
    while 0 < here.times {
        let next = here.held;
        if !same_held(s, values, held, next) {
            return Passed { count, piece: here };
        }
        count += here.times;
        here = advanced(s, values, here);
    }
    Passed { count, piece: here }
}

// The values from here on that equal no neighbour, behind one that is not like the one here; that one is counted too.
fn literal_run(s: &[u8], values: Values, p: Piece) -> Passed
    requires { Going (element_of values).E s.now p × (suc (length (list_of (element_of values).E s.now p)) ≤ limit) }
    ensures going { Going (element_of values).E s.now result.piece }
    ensures lone_run { LoneRun (element_of values).E (list_of (element_of values).E s.now p) result.count
        (list_of (element_of values).E s.now result.piece) }
{
    let mut count: u64 = 1;
    let mut here = p;
    while 0 < here.times {
        let held = here.held;
        if is_absent(held) {
            return Passed { count, piece: here };
        }
        let run = same_run(s, values, here);
        if run.count != 1 {
            return Passed { count, piece: here };
        }
        count += 1;
        here = run.piece;
    }
    Passed { count, piece: here }
}

// The stretch here.
pub(crate) fn stretch_at(s: &[u8], values: Values, p: Piece) -> StretchEnd
    requires { Going (element_of values).E s.now p × (0 < p.times) × (length (list_of (element_of values).E s.now p) ≤ limit) }
    ensures { Found (element_of values).E (list_of (element_of values).E s.now p) result }
{
    let held = p.held;
    let run = same_run(s, values, p);
    let behind = run.piece;
    if is_absent(held) {
        return StretchEnd::Absent(run.count as usize);
    }
    if 2 <= run.count {
        return StretchEnd::Repeat(run.count as usize);
    }
    let lone = literal_run(s, values, behind);
    StretchEnd::Literal(lone.count as usize)
}
