// What a picture of readings shows: the scale of depths, for each place across the range of the readings that it stands for, and what stands
// where a place and a row meet.
#![tactic(auto)]

mod scales;
mod shades;
mod stretches;

pub use scales::{apart, depth_of, scale_for};
pub use shades::shade_at;
pub use stretches::{nothing, with_reading};

// The least and the greatest of the present readings of a stretch, and how many are present and absent.
#[derive(Clone, Copy)]
pub struct Stretch {
    pub low: u64,
    pub high: u64,
    pub here: usize,
    pub gone: usize,
}

// The depths that a picture shows: from `base` on, a row for each `step`. Across, a place for each `per` readings.
#[derive(Clone, Copy)]
pub struct Scale {
    pub base: u64,
    pub step: u64,
    pub rows: usize,
    pub per: usize,
    pub places: usize,
}
