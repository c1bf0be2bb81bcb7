// Lines over the lent screen part of memory: horizontal, vertical and sloped ones.
#![tactic(auto)]

pub mod line;
mod slope;
