// A script read line by line: what each line says.
#![tactic(auto)]

pub mod forms;
pub mod reader;
pub mod split;
pub mod words;

// What a line says. Bad: no form fits.
#[derive(Clone, Copy)]
pub enum Form {
    Point(u8, u8, u8),
    Line(u8, u8, u8, u8, u8),
    Poke(u16, u8),
    Send,
    Bad,
}
