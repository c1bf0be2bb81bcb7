// What each accepted call does to the lent bytes, proved equal to `done` of the definitions. Text, cursor and flush stand in crate accepted_text.
#![tactic(auto)]

pub mod bitmaps;
pub mod ellipses;
pub mod lines;
pub mod open;
pub mod points;
pub mod poke;
mod screen;
pub mod sends;
