// Points and runs of a line: what the drawings of lines, boxes and ellipses are made of.
#![tactic(auto)]

pub mod point;
pub mod raster;
pub mod run;
