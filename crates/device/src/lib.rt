// The glass controller: eight lent register bytes and a lent panel. A write and a read by value, and what each call tests first.
#![tactic(auto)]

pub mod entry;
pub mod read;
pub mod registers;
pub mod write;
