// The stretches of readings that a picture shows, each passed by a walk: all of a column, and one for each place across.
use crate::kinds::Kind;
use crate::walk::Walk;
use picture::{Scale, Stretch};

// How many places across a picture has at most.
pub const MOST: usize = 680;

// The next n readings, or those that are left before the end or a refusal.
fn pass(walk: &mut Walk<'_>, n: usize) -> Stretch {
    let mut s = picture::nothing();
    for _ in 0..n {
        let Some(Ok(reading)) = walk.next() else {
            return s;
        };
        s = picture::with_reading(s, reading.unwrap_or(0), u8::from(reading.is_some()));
    }
    s
}

// All n readings of a column.
pub fn all(part: &[u8], kind: Kind, n: usize) -> Stretch {
    pass(&mut Walk::begin(part, kind), n)
}

// The readings of each place of a scale, for as many places as there may be.
pub fn of_scale(part: &[u8], kind: Kind, c: Scale) -> [Stretch; MOST] {
    let mut stretches = [picture::nothing(); MOST];
    let mut walk = Walk::begin(part, kind);
    for stretch in stretches.iter_mut().take(c.places) {
        *stretch = pass(&mut walk, c.per);
    }
    stretches
}
