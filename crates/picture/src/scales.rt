// The scale of a picture: which depths its rows stand for, and how many readings a place across stands for.
ghost use Rattle.std.specs.Prelude.{◌≡◌, ◌-◌, ◌<◌};
ghost use Rattle.picture.specs.Scale.{step_of, past_mark, base_of, parts_of, per_place, row_of, depth_of, scale_of};

use crate::Scale;

// How far apart two depths are.
pub fn apart(low: u64, high: u64) -> u64
    ensures { result ≡ high - low }
{
    if low < high {
        return high - low;
    }
    0
}

// A step of 1, 2 or 5 times a power of ten, of which fourteen are more than `span`.
fn step_for(span: u64) -> u64
    ensures { result ≡ step_of span }
{
    let need = span / 14 + 1;
    let mut p: u64 = 1;
    while 5 * p < need {
        p = 10 * p;
    }
    if need <= p {
        return p;
    }
    if need <= 2 * p {
        return 2 * p;
    }
    5 * p
}

// How far a depth lies past the last mark.
fn past_mark(low: u64, step: u64, origin: u64) -> u64
    requires { 0 < step }
    ensures { result ≡ past_mark low step origin }
{
    let l = low % step;
    let z = origin % step;
    if z <= l {
        return l - z;
    }
    l + (step - z)
}

// The last mark at or before the least depth.
fn base_for(low: u64, step: u64, origin: u64) -> u64
    requires { 0 < step }
    ensures { result ≡ base_of low step origin }
{
    let past = past_mark(low, step, origin);
    if past <= low {
        return low - past;
    }
    low
}

// How many parts of this size n readings have, a smaller one at the end counted.
fn parts(n: usize, size: usize) -> usize
    requires { 0 < size }
    ensures { result ≡ parts_of n size }
{
    if n == 0 {
        return 0;
    }
    (n - 1) / size + 1
}

// How many readings a place across stands for, where n are to fit `width` places.
fn per_place(n: usize, width: usize) -> usize
    ensures { result ≡ per_place n width }
{
    if width == 0 {
        return 1;
    }
    let per = parts(n, width);
    if per == 0 {
        return 1;
    }
    per
}

// The row of a depth.
pub(crate) fn row_of(value: u64, base: u64, step: u64) -> usize
    ensures { result ≡ row_of value base step }
{
    if step == 0 {
        return 0;
    }
    if value < base {
        return 0;
    }
    ((value - base) / step) as usize
}

// The depth at which a row begins.
pub fn depth_of(row: usize, base: u64, step: u64) -> u64
    ensures { result ≡ depth_of row base step }
{
    let r = row as u64;
    if step == 0 {
        return base;
    }
    if r <= (u64::MAX - base) / step {
        return base + r * step;
    }
    u64::MAX
}

// The scale for n readings between two depths, over so many places at most. `origin` is a depth that a row begins at.
pub fn scale_for(low: u64, high: u64, origin: u64, n: usize, width: usize) -> Scale
    ensures { result ≡ scale_of low high origin n width }
{
    let per = per_place(n, width);
    let step = step_for(apart(low, high));
    let base = base_for(low, step, origin);
    Scale {
        base,
        step,
        rows: row_of(high, base, step) + 1,
        per,
        places: parts(n, per),
    }
}
