// The lent record read: the glass that it is for, its head, key addresses, where its panels stand, the STATE test, and the entry of every call.
#![tactic(auto)]

pub mod entry;
pub mod glass;
pub mod head;
pub mod keys;
pub mod panels;
pub mod state;
