// Strict LEB128 numbers (the crate's storage/parse/leb128.rs): reading at a position of a slice.
#![tactic(auto)]

ghost use Rattle.std.specs.Prelude.{◌≡◌, ◌+◌, ◌<◌, ◌≤◌, ◌^◌, length, get_or, pos, negsuc};
ghost use Rattle.std.specs.Int.Signed.{mag};
ghost use Rattle.leb128.specs.Cases.{parsed_of};
ghost use Rattle.leb128.specs.Digits.{whole};
ghost use Rattle.leb128.specs.Read.{signed, fill, u64_at, end_of, i64_at, u32_at, nonzero_at};
ghost use Rattle.leb128.specs.Short.{short, entry_of, i64_by};
ghost use Rattle.leb128.specs.Sound.{Sound};

use refusal::{Refusal, Why};

// A number and the position behind it (the crate's ParseResult).
pub type Parsed<T> = Result<(T, usize), Refusal>;

fn wide(b: u8) -> u64
    ensures { result ≡ b }
{
    b as u64
}

// A first byte as the place of its entry, and an entry as the number.
fn place_of(b: u8) -> usize
    ensures { (result ≡ b) × (result < 256) }
{
    b as usize
}

fn number_of(x: i8) -> i64
    ensures { result ≡ x }
{
    x as i64
}

// A number of more than one byte, of which the first is at hand. What stands behind nine bytes ends it. By the hints it stands apart from its callers'
// loops, through which a number of one byte falls without a jump.
#[cold]
#[inline(never)]
fn long_u64(s: &[u8], at: usize, first: u8) -> Parsed<u64>
    requires { (at < length s.now) × (first ≡ get_or s.now at 0) × (128 ≤ first) }
    ensures { parsed_of result ≡ u64_at s.now at }
{
    let mut low: u64 = wide(first - 128);
    let mut scale: u64 = 128;
    let mut count: usize = 1;
    let mut i = at + 1;
    while i < s.len() {
        let b = s[i];
        if count == 9 {
            if b == 1 {
                return Ok((low + scale, i + 1));
            }
            return Err(Refusal(if b == 0 { Why::Overlong } else { Why::TooLarge }, at));
        }
        if b < 128 {
            if b == 0 {
                return Err(Refusal(Why::Overlong, at)); // a final 00
            }
            return Ok((low + scale * wide(b), i + 1));
        }
        low = low + scale * wide(b - 128);
        scale = scale * 128;
        count = count + 1;
        i = i + 1;
    }
    Err(Refusal(Why::Cut, at)) // an unsigned number without its final byte
}

// The u64 at a position, or its refusal.
#[inline(always)]
pub fn leb128_u64(s: &[u8], at: usize) -> Parsed<u64>
    ensures { parsed_of result ≡ u64_at s.now at }
{
    if at < s.len() {
        let b = s[at];
        if b < 128 {
            return Ok((wide(b), at + 1));
        }
        return long_u64(s, at, b);
    }
    Err(Refusal(Why::NothingDue, s.len())) // no unsigned number begins
}

// The position behind a number of more than one byte; 0 where it is refused.
fn long_end(s: &[u8], at: usize) -> usize
    requires { (at < length s.now) × (128 ≤ get_or s.now at 0) }
    ensures { result ≡ end_of (u64_at s.now at) }
{
    let mut passed: usize = 1;
    let mut i = at + 1;
    while i < s.len() {
        let b = s[i];
        if passed == 9 {
            return if b == 1 { i + 1 } else { 0 };
        }
        if b < 128 {
            return if b == 0 { 0 } else { i + 1 };
        }
        passed = passed + 1;
        i = i + 1;
    }
    0
}

// The position behind the u64 at a position; 0 where it is refused, which no number has behind it.
pub fn end_u64(s: &[u8], at: usize) -> usize
    ensures { result ≡ end_of (u64_at s.now at) }
{
    if at < s.len() {
        if s[at] < 128 {
            return at + 1;
        }
        return long_end(s, at);
    }
    0
}

// n as a signed number, and -(n + 1), whose bits are those of n complemented.
fn up(n: u64) -> i64
    requires { n < 2 ^ 63 }
    ensures { result ≡ pos n }
{
    n as i64
}

fn down(n: u64) -> i64
    requires { n < 2 ^ 63 }
    ensures { result ≡ negsuc n }
{
    !(n as i64)
}

// x where it is not negative, else -(x + 1).
pub fn magnitude(x: i64) -> u64
    ensures { (result ≡ mag x) × (result < 2 ^ 63) }
{
    if x < 0 { !x as u64 } else { x as u64 }
}

// The final byte that only repeats bit 6 of b.
fn fill_of(b: u8) -> u8
    ensures { result ≡ fill b }
{
    if b % 128 < 64 { 0 } else { 127 }
}

// The signed number of ten bytes that begins at `at`. The last byte counts 2^63 times and only repeats the sign: exact at -2^63.
fn tenth_i64(at: usize, low: u64, scale: u64, prev: u8, last: u8) -> Parsed<i64>
    requires sound { Sound low scale last 10 }
    requires at_bound { at + 10 < 2 ^ 64 }
    ensures { parsed_of result ≡ signed at at (whole low scale prev last 10) }
{
    if last != fill_of(last) {
        return Err(Refusal(Why::TooLarge, at));
    }
    if last == fill_of(prev) {
        return Err(Refusal(Why::Overlong, at));
    }
    if last == 0 {
        return Ok((up(low), at + 10));
    }
    Ok((down(scale - 1 - low), at + 10))
}

// The mark that more bytes follow: no number of one byte.
const MORE: i8 = -128;

// For each first byte the signed number that it stands for alone, or MORE.
const SHORT: [i8; 256] = [
    0, 1, 2, 3, 4, 5, 6, 7, 8, 9, 10, 11, 12, 13, 14, 15, 16, 17, 18, 19, 20, 21, 22, 23, 24, 25,
    26, 27, 28, 29, 30, 31, 32, 33, 34, 35, 36, 37, 38, 39, 40, 41, 42, 43, 44, 45, 46, 47, 48, 49,
    50, 51, 52, 53, 54, 55, 56, 57, 58, 59, 60, 61, 62, 63, -64, -63, -62, -61, -60, -59, -58, -57,
    -56, -55, -54, -53, -52, -51, -50, -49, -48, -47, -46, -45, -44, -43, -42, -41, -40, -39, -38,
    -37, -36, -35, -34, -33, -32, -31, -30, -29, -28, -27, -26, -25, -24, -23, -22, -21, -20, -19,
    -18, -17, -16, -15, -14, -13, -12, -11, -10, -9, -8, -7, -6, -5, -4, -3, -2, -1, -128, -128,
    -128, -128, -128, -128, -128, -128, -128, -128, -128, -128, -128, -128, -128, -128, -128, -128,
    -128, -128, -128, -128, -128, -128, -128, -128, -128, -128, -128, -128, -128, -128, -128, -128,
    -128, -128, -128, -128, -128, -128, -128, -128, -128, -128, -128, -128, -128, -128, -128, -128,
    -128, -128, -128, -128, -128, -128, -128, -128, -128, -128, -128, -128, -128, -128, -128, -128,
    -128, -128, -128, -128, -128, -128, -128, -128, -128, -128, -128, -128, -128, -128, -128, -128,
    -128, -128, -128, -128, -128, -128, -128, -128, -128, -128, -128, -128, -128, -128, -128, -128,
    -128, -128, -128, -128, -128, -128, -128, -128, -128, -128, -128, -128, -128, -128, -128, -128,
    -128, -128, -128, -128, -128, -128, -128, -128, -128, -128, -128, -128, -128, -128,
];

// The table, for whoever reads many numbers and lends it. Rattle has no static data: it is made on the stack wherever it is named.
pub fn short_numbers() -> [i8; 256]
    ensures { result ≡ short }
{
    SHORT
}

// A number of more than one byte, of which the first is at hand. Where bit 6 of the final byte is set, the sign is extended through all the bits
// above it: the result is the complement of the complemented digits, exact at -1 and at -64.
#[inline(never)]
fn long_i64(s: &[u8], at: usize, first: u8) -> Parsed<i64>
    requires { (at < length s.now) × (first ≡ get_or s.now at 0) × (128 ≤ first) }
    ensures { parsed_of result ≡ i64_at s.now at }
{
    let mut low: u64 = wide(first - 128);
    let mut scale: u64 = 128;
    let mut prev: u8 = first;
    let mut n: usize = 1;
    let mut i = at + 1;
    while i < s.len() {
        let b = s[i];
        if n == 9 {
            if b < 128 {
                return tenth_i64(at, low, scale, prev, b);
            }
            return Err(Refusal(Why::TooLarge, at));
        }
        if b < 128 {
            if b == fill_of(prev) {
                return Err(Refusal(Why::Overlong, at));
            }
            let v = low + scale * wide(b);
            if b < 64 {
                return Ok((up(v), i + 1));
            }
            return Ok((down(scale * 128 - 1 - v), i + 1));
        }
        low = low + scale * wide(b - 128);
        scale = scale * 128;
        prev = b;
        n = n + 1;
        i = i + 1;
    }
    Err(Refusal(Why::Cut, at)) // a signed number without its final byte
}

// The i64 at a position, or its refusal, by its bytes alone: for the cursors, which read a number or two at a call and would make the table for each.
pub fn i64_by_bytes(s: &[u8], at: usize) -> Parsed<i64>
    ensures { parsed_of result ≡ i64_at s.now at }
{
    if s.len() <= at {
        return Err(Refusal(Why::NothingDue, s.len()));
    }
    let first = s[at];
    if 128 <= first {
        return long_i64(s, at, first);
    }
    if first < 64 {
        return Ok((up(wide(first)), at + 1));
    }
    Ok((down(wide(127 - first)), at + 1))
}

// The i64 at a position, or its refusal: a number of one byte from the table that is lent.
pub fn i64_by(table: &[i8; 256], s: &[u8], at: usize) -> Parsed<i64>
    ensures { parsed_of result ≡ i64_by table.now s.now at }
{
    if at < s.len() {
        let b = place_of(s[at]);
        let x = table[b];
        if x != MORE {
            return Ok((number_of(x), at + 1));
        }
    }
    i64_by_bytes(s, at)
}

// The entry of a first byte that stands alone: the table is made for it.
fn short_of(place: usize) -> i64
    requires { place < 128 }
    ensures { result ≡ entry_of place }
{
    number_of(SHORT[place])
}

// The i64 at a position, or its refusal: a number of one byte from the table. Its entry is asked for at two places, since a function that is called
// once is built into its caller whole, and then this one, with the table in it, is too large to be built into anything.
pub fn leb128_i64(s: &[u8], at: usize) -> Parsed<i64>
    ensures { parsed_of result ≡ i64_at s.now at }
{
    if at < s.len() {
        let b = s[at];
        let place = place_of(b);
        if 128 <= place {
            return long_i64(s, at, b);
        }
        if place < 64 {
            return Ok((short_of(place), at + 1));
        }
        return Ok((short_of(place), at + 1));
    }
    Err(Refusal(Why::NothingDue, s.len())) // no signed number begins
}

// The u32 at a position, read as a u64 first, or its refusal.
#[inline(always)]
pub fn leb128_u32(s: &[u8], at: usize) -> Parsed<u32>
    ensures { parsed_of result ≡ u32_at s.now at }
{
    let (v, next) = leb128_u64(s, at)?;
    if v <= 4294967295 {
        return Ok((v as u32, next));
    }
    Err(Refusal(Why::TooLarge, at))
}

// The u64 at a position, which must not be 0, or its refusal. One of more than one byte never is.
pub fn nonzero_leb128_u64(s: &[u8], at: usize) -> Parsed<u64>
    ensures { parsed_of result ≡ nonzero_at s.now at }
{
    if at < s.len() {
        let b = s[at];
        if b == 0 {
            return Err(Refusal(Why::Zero, at));
        }
        if b < 128 {
            return Ok((wide(b), at + 1));
        }
        return long_u64(s, at, b);
    }
    Err(Refusal(Why::NothingDue, s.len())) // nor one that is not 0
}
