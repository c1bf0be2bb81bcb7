// A stored call of sixteen bytes, run on the core: what it is told, the fonts that it is lent, and its answer.
#![tactic(auto)]

pub mod answer;
pub mod call;
pub mod fonts;
pub mod run;
