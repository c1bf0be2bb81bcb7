// What one panel is owed, in the lent record: a rectangle for each band, joined, taken and tested on the bytes.
#![tactic(auto)]

pub mod bands;
pub mod rects;
