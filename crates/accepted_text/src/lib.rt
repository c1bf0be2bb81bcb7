// What the accepted calls of text, cursor and flush do to the lent bytes, proved equal to `done` of the definitions.
#![tactic(auto)]

pub mod clear;
pub mod cursor;
pub mod flushes;
pub mod print;
mod window;
