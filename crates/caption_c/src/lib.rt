// The C interface of include/caption.h: each symbol is the call of crate caption, with the same outcome, its answer in codes and numbers.
#![tactic(auto)]

pub mod bitmaps;
pub mod clear;
pub mod controller;
pub mod cursor;
pub mod dirty;
pub mod drive;
pub mod ellipses;
pub mod flushes;
pub mod lines;
pub mod open;
pub mod place;
pub mod points;
pub mod poke;
pub mod print;
pub mod sends;
