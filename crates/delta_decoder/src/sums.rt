// Running sums. A sum z is kept as the unsigned number z + 2^63, so that it leaves i64 just where that number leaves u64.
ghost use Rattle.std.specs.Prelude.{◌≡◌, min};
ghost use Rattle.encoding.specs.Cases.{maybe_of};
ghost use Rattle.delta_decoder.specs.Sofar.{sum_of, plus, plus_times, times_held};

use leb128::magnitude;

pub(crate) const ALL: u64 = 18446744073709551615;

// The sum 0.
pub const HALF: u64 = 9223372036854775808;

// The sum that is kept as n.
pub fn sum_of(n: u64) -> i64
    ensures { result ≡ sum_of n }
{
    if n < HALF {
        return !((HALF - 1 - n) as i64);
    }
    (n - HALF) as i64
}

// The sum n and a difference; none where it leaves i64.
pub(crate) fn add(n: u64, d: i64) -> Option<u64>
    ensures { maybe_of result ≡ plus n d }
{
    let m = magnitude(d);
    if d < 0 {
        if m < n {
            return Some(n - m - 1);
        }
        return None;
    }
    if m <= ALL - n {
        return Some(n + m);
    }
    None
}

// The sum n and c times a difference: sums rise or fall, so the last one decides, and no sum is computed that does not fit.
pub(crate) fn add_times(n: u64, d: i64, c: u64) -> Option<u64>
    ensures { maybe_of result ≡ plus_times n d c }
{
    let m = magnitude(d);
    if d < 0 {
        if c <= n / (m + 1) {
            return Some(n - c * (m + 1));
        }
        return None;
    }
    if m == 0 {
        return Some(n);
    }
    if c <= (ALL - n) / m {
        return Some(n + c * m);
    }
    None
}

fn smaller(a: u64, b: u64) -> u64
    ensures { result ≡ min a b }
{
    if a <= b {
        return a;
    }
    b
}

// How many of c times a difference can be added to the sum n before it leaves i64.
pub fn times_held(n: u64, d: i64, c: u64) -> u64
    ensures { result ≡ times_held n d c }
{
    let m = magnitude(d);
    if d < 0 {
        return smaller(c, n / (m + 1));
    }
    if m == 0 {
        return c;
    }
    smaller(c, (ALL - n) / m)
}
