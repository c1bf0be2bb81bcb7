// The line driver: a send made through the glass controller.
#![tactic(auto)]

pub mod drive;
pub mod line;
