// The difference at a position read and added to a sum. One of one or two bytes is added without asking which of the two it is, or for its sign:
// both change from reading to reading of a rough stroke. The first byte's entry in the table is the number of one byte, and adds nothing to one of two.
ghost use Rattle.std.specs.Prelude.{◌≡◌, ◌+◌, ◌<◌, ◌≤◌, ◌^◌};
ghost use Rattle.leb128.specs.Cases.{parsed_of};
ghost use Rattle.leb128.specs.Read.{i64_at};
ghost use Rattle.leb128.specs.Short.{entry_of, short};
ghost use Rattle.delta_decoder.specs.Added.{adding, over_mark, Nearly, NearBytes};

use crate::difference;
use crate::sums::{ALL, add};
use leb128::{Parsed, magnitude};
use refusal::{Refusal, Why};

// The sum with a difference of one or two bytes that cannot lead out of i64, and the position behind it; none where it is another.
pub(crate) type Near = Option<(u64, usize)>;

// What is added and what is taken away again are below this.
const ROOM: u64 = 32768;

fn wide(b: u8) -> u64
    ensures { (result ≡ b) × (result < 256) }
{
    b as u64
}

fn place_of(b: u8) -> usize
    ensures { (result ≡ b) × (result < 256) }
{
    b as usize
}

// How far an entry of the table stands above the mark, -128.
fn over_mark(x: i8) -> u64
    ensures { result ≡ over_mark x }
{
    let z = x as i64;
    if z < 0 {
        127 - magnitude(z)
    } else {
        magnitude(z) + 128
    }
}

// x where the bit is 1, else 0.
fn only(x: u64, bit: u64) -> u64
    requires { (bit ≤ 1) × (x < 65536) }
    ensures { (result ≤ x) × (bit ≡ 0 → result ≡ 0) × (bit ≡ 1 → result ≡ x) }
{
    x * bit
}

// The difference whose first bytes are b and d, the second at `behind`, added to n; e is how far the entry of b stands above the mark.
fn near_bytes(e: u64, b: u64, d: u64, behind: usize, n: u64) -> Near
    requires b_bound { (b < 256) × (d < 256) × (behind + 1 < 2 ^ 64) × (32768 ≤ n) × (n + 32768 < 2 ^ 64) }
    requires e_value { e ≡ over_mark (entry_of b) }
    ensures { NearBytes b d behind n result }
{
    let two = b / 128;
    let low = b % 128;
    let high = only(d, two);
    if 128 <= high {
        return None;
    }
    if d + only(256, 1 - two) == low / 64 * 127 {
        return None;
    }
    let up = e + only(low, two) + 128 * high;
    let down = only(128, 1 - two) + high / 64 * 16384;
    Some((n + up - down, behind + two as usize))
}

// The difference at `at` added to the sum n, where it has one or two bytes and n is far from both ends.
pub(crate) fn add_near(table: &[i8; 256], s: &[u8], at: usize, n: u64) -> Near
    requires { table.now ≡ short }
    ensures { Nearly result (adding n at (i64_at s.now at)) }
{
    if n < ROOM {
        return None;
    }
    if ALL - ROOM < n {
        return None;
    }
    if s.len() <= at {
        return None;
    }
    let behind = at + 1;
    if s.len() <= behind {
        return None;
    }
    let first = s[at];
    let place = place_of(first);
    let e = over_mark(table[place]);
    let d = wide(s[behind]);
    near_bytes(e, wide(first), d, behind, n)
}

// Any difference at `at` added to the sum n: the sum, and the position behind the difference.
pub(crate) fn add_at(table: &[i8; 256], s: &[u8], at: usize, n: u64) -> Parsed<u64>
    requires { table.now ≡ short }
    ensures { parsed_of result ≡ adding n at (i64_at s.now at) }
{
    let (d, next) = difference(table, s, at)?;
    match add(n, d) {
        Some(m) => Ok((m, next)),
        None => Err(Refusal(Why::SumOutside, at)),
    }
}
