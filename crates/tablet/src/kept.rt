// Readings of every kind as one kind of number, by which `decimal` keeps them: a signed one as z + 2^63, a boolean as 0 or 1.
ghost use Rattle.std.specs.Prelude.{◌≡◌};
ghost use Rattle.tablet.specs.Kept.{kept_of};

use decimal::HALF;
use delta_decoder::sums::sum_of;
use leb128::magnitude;

// A signed number as it is kept.
pub fn kept(x: i64) -> u64
    ensures { result ≡ kept_of x }
{
    let m = magnitude(x);
    if x < 0 {
        return HALF - 1 - m;
    }
    HALF + m
}

// The signed numbers of a list, at the front of signed.
pub fn mean_all(values: &[u64], signed: &mut [i64]) {
    for (z, value) in signed.iter_mut().zip(values) {
        *z = sum_of(*value);
    }
}

// The booleans of a list, at the front of flags.
pub fn narrow_all(values: &[u64], flags: &mut [u8]) {
    for (flag, value) in flags.iter_mut().zip(values) {
        *flag = u8::from(*value != 0);
    }
}
