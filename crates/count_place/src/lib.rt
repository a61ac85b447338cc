// Comparing the one encoding of a number with the bytes at a position, byte by byte, without writing it.
#![tactic(auto)]

ghost use Rattle.std.specs.Prelude.{◌≡◌, [], ◌∷◌, ◌≤◌, drop, get_or};
ghost use Rattle.leb128.specs.Write.{encoded, u64_bytes, i64_bytes};
ghost use Rattle.count_place.specs.Cases.{place_of};
ghost use Rattle.count_place.specs.Place.{standing};

use leb128::magnitude;

// The place of the first byte of an encoding that does not stand there.
#[derive(Clone, Copy, Debug, PartialEq, Eq)]
pub struct Differs(pub usize);

// The position behind an encoding that stands there.
pub type Place = Result<usize, Differs>;

// One byte.
fn compare_byte(s: &[u8], at: usize, b: u8) -> Place
    ensures { place_of result ≡ standing at (drop at s.now) (b ∷ []) }
{
    if at < s.len() {
        if s[at] == b {
            return Ok(at + 1);
        }
    }
    Err(Differs(at))
}

// The first byte of the encoding of v: its low seven bits, complemented in a negative number, with bit 7 where more follows.
fn first_byte(limit: u64, neg: bool, v: u64) -> u8
    requires { (2 ≤ limit) × (limit ≤ 128) }
    ensures { result ≡ get_or (encoded limit neg v) 0 0 }
{
    let d = (v % 128) as u8;
    let group = if neg { 127 - d } else { d };
    if v < limit { group } else { 128 + group }
}

// The encoding of v, whose final byte has less than limit.
fn compare_encoded(s: &[u8], at: usize, limit: u64, neg: bool, v: u64) -> Place
    requires { (2 ≤ limit) × (limit ≤ 128) }
    ensures { place_of result ≡ standing at (drop at s.now) (encoded limit neg v) }
{
    let mut w = v;
    let mut i = at;
    while limit <= w {
        i = compare_byte(s, i, first_byte(limit, neg, w))?;
        w /= 128;
    }
    compare_byte(s, i, first_byte(limit, neg, w))
}

// v as it is written, beside the bytes at a position.
pub fn compare_u64(s: &[u8], at: usize, v: u64) -> Place
    ensures { place_of result ≡ standing at (drop at s.now) (u64_bytes v) }
{
    compare_encoded(s, at, 128, false, v)
}

pub fn compare_i64(s: &[u8], at: usize, x: i64) -> Place
    ensures { place_of result ≡ standing at (drop at s.now) (i64_bytes x) }
{
    if x < 0 {
        compare_encoded(s, at, 64, true, magnitude(x))
    } else {
        compare_encoded(s, at, 64, false, magnitude(x))
    }
}
