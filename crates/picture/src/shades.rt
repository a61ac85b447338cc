// What stands where a place and a row meet.
ghost use Rattle.std.specs.Prelude.{◌≡◌};
ghost use Rattle.picture.specs.Shade.{shade_of, shade_at};

use crate::scales::row_of;
use crate::{Scale, Stretch};

// 0 air or a gap, 1 the trace of readings, 2 the trace where some are absent, 3 clay below it. The trace goes from the row `top` to the row
// `bottom`; `here` and `gone` are how many readings are present and absent.
fn shade(row: usize, top: usize, bottom: usize, here: usize, gone: usize) -> usize
    ensures { result ≡ shade_of row top bottom here gone }
{
    if here == 0 {
        return 0;
    }
    if row < top {
        return 0;
    }
    if bottom < row {
        return 3;
    }
    if gone == 0 {
        return 1;
    }
    2
}

// The shade of a place that stands for the readings `s`.
pub fn shade_at(c: Scale, row: usize, s: Stretch) -> usize
    ensures { result ≡ shade_at c row s }
{
    let top = row_of(s.low, c.base, c.step);
    let bottom = row_of(s.high, c.base, c.step);
    shade(row, top, bottom, s.here, s.gone)
}
