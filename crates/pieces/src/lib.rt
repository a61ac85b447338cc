// Columns read a piece at a time: the next reading, how many times it stands there at once, and the state behind so many of them. A host counts
// the readings of a piece down by itself, so that inside a run it calls nothing. The states are those of the cursors, and a host may take pieces
// and single readings from one state by turns.
#![tactic(auto)]

pub mod boolean;
pub mod delta;
pub mod rle;
