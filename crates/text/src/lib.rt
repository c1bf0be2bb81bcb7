// Printing over the lent text part of memory and the lent flags of the record. `rows` and `columns` are those of the text cells.
#![tactic(auto)]

pub mod clear;
pub mod page;
pub mod print;
pub mod scroll;
