// A script run: its calls made, and what they print written into lent bytes.
#![tactic(auto)]

pub mod output;
pub mod runner;
