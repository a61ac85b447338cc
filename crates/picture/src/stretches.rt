// What is known of readings that come one after the other, of a place across or of all: their range, and how many are present and absent.
ghost use Rattle.std.specs.Prelude.{◌≡◌, [], min, max};
ghost use Rattle.picture.specs.Stretch.{known, one_more, with_value, with_reading};

use crate::Stretch;

// Before the first reading.
pub fn nothing() -> Stretch
    ensures { result ≡ known [] [] }
{
    Stretch {
        low: 0,
        high: 0,
        here: 0,
        gone: 0,
    }
}

fn least(a: u64, b: u64) -> u64
    ensures { result ≡ min a b }
{
    if a < b { a } else { b }
}

fn greatest(a: u64, b: u64) -> u64
    ensures { result ≡ max a b }
{
    if a < b { b } else { a }
}

// A count with one more, which stays at the greatest.
fn one_more(n: usize) -> usize
    ensures { result ≡ one_more n }
{
    if n < usize::MAX {
        return n + 1;
    }
    n
}

// A stretch with one present reading more.
fn with_value(s: Stretch, value: u64) -> Stretch
    ensures { result ≡ with_value s value }
{
    if s.here == 0 {
        return Stretch {
            low: value,
            high: value,
            here: 1,
            gone: s.gone,
        };
    }
    Stretch {
        low: least(s.low, value),
        high: greatest(s.high, value),
        here: one_more(s.here),
        gone: s.gone,
    }
}

// A stretch with one reading more.
pub fn with_reading(s: Stretch, value: u64, here: u8) -> Stretch
    ensures { result ≡ with_reading s value here }
{
    if here == 0 {
        return Stretch {
            low: s.low,
            high: s.high,
            here: s.here,
            gone: one_more(s.gone),
        };
    }
    with_value(s, value)
}
