// A send: one line copied from screen to panel, and what that does to the pending part of the record.
#![tactic(auto)]

pub mod line;
pub mod pending;
