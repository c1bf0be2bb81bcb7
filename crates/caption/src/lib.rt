// The exported calls: each tests all that it is given, and lends what it was lent on to what an accepted call does.
#![tactic(auto)]

pub mod answer;
pub mod bitmaps;
pub mod clear;
pub mod controller;
pub mod cursor;
pub mod dirty;
pub mod drive;
pub mod ellipses;
pub mod flushes;
pub mod lines;
pub mod open;
pub mod place;
pub mod points;
pub mod poke;
pub mod print;
pub mod sends;
