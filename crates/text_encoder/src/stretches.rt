// The stretches of the list that is walked, found by looking ahead with copies of the walk.
ghost use Rattle.std.specs.Prelude.{◌≡◌, ◌+◌, ◌≤◌, ◌<◌, length, drop};
ghost use Rattle.encoding.specs.Ahead.{Off};
ghost use Rattle.encoding.specs.Limit.{limit};
ghost use Rattle.encoding.specs.Stretches.{stretches};
ghost use Rattle.text.specs.Text.{bytes_at, same_bytes};
ghost use Rattle.encoding.specs.Cuts.{CutOf, RepeatOf, PairedIn};
ghost use Rattle.text_encoder.specs.Walks.{AbsentIf, held_in, Within, name_in, same_as, same_of, At, names_from, Pairs};

use crate::walk::{Held, Splicing, advanced, stepped};
use encoding::StretchEnd;

// So many readings, and the walk behind them.
#[derive(Clone, Copy)]
pub(crate) struct Passed {
    pub count: u64,
    pub walk: Splicing,
}

// A stretch, with how many readings it has, and the walk behind it.
#[derive(Clone, Copy)]
pub(crate) struct Found {
    pub stretch: StretchEnd,
    pub walk: Splicing,
}

// Are the n bytes of s from i on the m bytes of t from j on?
fn same_names(s: &[u8], i: usize, n: usize, t: &[u8], j: usize, m: usize) -> bool
    requires { (i + n ≤ length s.now) × (j + m ≤ length t.now) }
    ensures { result ≡ same_bytes (bytes_at s.now i n) (bytes_at t.now j m) }
{
    text::same_bytes(&s[i..i + n], &t[j..j + m])
}

// Is the reading that is held the name of n bytes of s from i on?
fn same_as(s: &[u8], i: usize, n: usize, column: &[u8], bytes: &[u8], held: Held) -> bool
    requires { (i + n ≤ length s.now) × Within column.now bytes.now held }
    ensures { result ≡ same_as (bytes_at s.now i n) (held_in column.now bytes.now held) }
{
    match held {
        Held::Absent => false,
        Held::Old(start, len) => same_names(s, i, n, column, start, len),
        Held::New(start, len) => same_names(s, i, n, bytes, start, len),
    }
}

// Are two readings the same name?
fn same_held(column: &[u8], bytes: &[u8], a: Held, b: Held) -> bool
    requires { Within column.now bytes.now a × Within column.now bytes.now b }
    ensures { result ≡ same_of (held_in column.now bytes.now a) (held_in column.now bytes.now b) }
{
    match a {
        Held::Absent => false,
        Held::Old(start, len) => same_as(column, start, len, column, bytes, b),
        Held::New(start, len) => same_as(bytes, start, len, column, bytes, b),
    }
}

pub(crate) fn is_absent(held: Held) -> bool
    ensures { AbsentIf held result }
{
    match held {
        Held::Absent => true,
        Held::Old(_, _) => false,
        Held::New(_, _) => false,
    }
}

// The absent readings from here on.
fn absent_end(
    column: &[u8],
    bytes: &[u8],
    starts: &[u64],
    lens: &[u64],
    present: &[u8],
    s: Splicing,
) -> Passed
    requires pairs { Pairs bytes.now starts.now lens.now present.now }
    requires at { At column.now bytes.now starts.now lens.now present.now s }
    requires s_len_bound { length (names_from column.now bytes.now starts.now lens.now present.now s) ≤ limit }
    requires times_nonzero { (0 < s.times) × (s.held ≡ Held.Absent) }
    ensures at_2 { At column.now bytes.now starts.now lens.now present.now result.walk }
    ensures cut_of { CutOf same_bytes
        (names_from column.now bytes.now starts.now lens.now present.now s)
        (StretchEnd.Absent result.count)
        (names_from column.now bytes.now starts.now lens.now present.now result.walk) }
{
    let mut count = s.times;
    let mut walk = advanced(column, bytes, starts, lens, present, s);
    while 0 < walk.times {
        let held = walk.held;
        if !is_absent(held) {
            return Passed {
                count: count,
                walk: walk,
            };
        }
        count += walk.times;
        walk = advanced(column, bytes, starts, lens, present, walk);
    }
    Passed {
        count: count,
        walk: walk,
    }
}

// The readings from here on that are the name here.
fn repeat_end(
    column: &[u8],
    bytes: &[u8],
    starts: &[u64],
    lens: &[u64],
    present: &[u8],
    s: Splicing,
) -> Passed
    requires pairs { Pairs bytes.now starts.now lens.now present.now }
    requires at { At column.now bytes.now starts.now lens.now present.now s }
    requires s_len_bound { length (names_from column.now bytes.now starts.now lens.now present.now s) ≤ limit }
    requires times_nonzero { (0 < s.times) × (s.held ≡ Held.Absent → ⊥) }
    ensures at_2 { At column.now bytes.now starts.now lens.now present.now result.walk }
    ensures repeat_of { RepeatOf same_bytes (name_in (held_in column.now bytes.now s.held))
        (names_from column.now bytes.now starts.now lens.now present.now s)
        result.count
        (names_from column.now bytes.now starts.now lens.now present.now result.walk) }
{
    let name = s.held;
    let mut count = s.times;
    let mut walk = advanced(column, bytes, starts, lens, present, s);
    while 0 < walk.times {
        let held = walk.held;
        if !same_held(column, bytes, name, held) {
            return Passed {
                count: count,
                walk: walk,
            };
        }
        count += walk.times;
        walk = advanced(column, bytes, starts, lens, present, walk);
    }
    Passed {
        count: count,
        walk: walk,
    }
}

// Does the name here stand here twice?
fn paired(
    column: &[u8],
    bytes: &[u8],
    starts: &[u64],
    lens: &[u64],
    present: &[u8],
    s: Splicing,
) -> bool
    requires pairs { Pairs bytes.now starts.now lens.now present.now }
    requires at { At column.now bytes.now starts.now lens.now present.now s }
    requires times_nonzero { (0 < s.times) × (s.held ≡ Held.Absent → ⊥) }
    ensures { PairedIn same_bytes (name_in (held_in column.now bytes.now s.held))
        (names_from column.now bytes.now starts.now lens.now present.now s) result }
{
    if 1 < s.times {
        return true;
    }
    let walk = advanced(column, bytes, starts, lens, present, s);
    if walk.times == 0 {
        return false;
    }
    let name = s.held;
    let held = walk.held;
    same_held(column, bytes, name, held)
}

// The names from here on that equal no neighbour.
fn literal_end(
    column: &[u8],
    bytes: &[u8],
    starts: &[u64],
    lens: &[u64],
    present: &[u8],
    s: Splicing,
) -> Passed
    requires pairs { Pairs bytes.now starts.now lens.now present.now }
    requires at { At column.now bytes.now starts.now lens.now present.now s }
    requires s_len_bound { length (names_from column.now bytes.now starts.now lens.now present.now s) ≤ limit }
    requires times_nonzero { (0 < s.times) × (s.held ≡ Held.Absent → ⊥) }
    requires off { Off same_bytes (name_in (held_in column.now bytes.now s.held))
        (stretches same_bytes (drop 1 (names_from column.now bytes.now starts.now lens.now present.now s))) }
    ensures at_2 { At column.now bytes.now starts.now lens.now present.now result.walk }
    ensures cut_of { CutOf same_bytes
        (names_from column.now bytes.now starts.now lens.now present.now s)
        (StretchEnd.Literal result.count)
        (names_from column.now bytes.now starts.now lens.now present.now result.walk) }
{
    let mut count: u64 = 1;
    let mut walk = stepped(column, bytes, starts, lens, present, s);
    while 0 < walk.times {
        let held = walk.held;
        if is_absent(held) {
            return Passed {
                count: count,
                walk: walk,
            };
        }
        if paired(column, bytes, starts, lens, present, walk) {
            return Passed {
                count: count,
                walk: walk,
            };
        }
        count += 1;
        walk = stepped(column, bytes, starts, lens, present, walk);
    }
    Passed {
        count: count,
        walk: walk,
    }
}

// The stretch here.
pub(crate) fn stretch_at(
    column: &[u8],
    bytes: &[u8],
    starts: &[u64],
    lens: &[u64],
    present: &[u8],
    s: Splicing,
) -> Found
    requires pairs { Pairs bytes.now starts.now lens.now present.now }
    requires at { At column.now bytes.now starts.now lens.now present.now s }
    requires s_len_bound { length (names_from column.now bytes.now starts.now lens.now present.now s) ≤ limit }
    requires times_nonzero { 0 < s.times }
    ensures at_2 { At column.now bytes.now starts.now lens.now present.now result.walk }
    ensures cut_of { CutOf same_bytes
        (names_from column.now bytes.now starts.now lens.now present.now s)
        result.stretch
        (names_from column.now bytes.now starts.now lens.now present.now result.walk) }
{
    let held = s.held;
    if is_absent(held) {
        let a = absent_end(column, bytes, starts, lens, present, s);
        let walk = a.walk;
        return Found {
            stretch: StretchEnd::Absent(a.count as usize),
            walk: walk,
        };
    }
    let b = repeat_end(column, bytes, starts, lens, present, s);
    if 2 <= b.count {
        let walk = b.walk;
        return Found {
            stretch: StretchEnd::Repeat(b.count as usize),
            walk: walk,
        };
    }
    let c = literal_end(column, bytes, starts, lens, present, s);
    let walk = c.walk;
    Found {
        stretch: StretchEnd::Literal(c.count as usize),
        walk: walk,
    }
}
