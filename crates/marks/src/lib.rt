// Rectangles, and all that makes marks, by value.
#![tactic(auto)]

pub mod mark;
pub mod rect;
pub mod span;
