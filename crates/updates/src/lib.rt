// The lent record written in place: fields of its head, marks owed to each panel, what open and reset leave.
#![tactic(auto)]

pub mod head;
pub mod open;
pub mod panels;
pub mod update;
