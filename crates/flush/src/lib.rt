// A flush: the walk over the text's cells, the choice of each glyph, the test that its bytes are there, and painting.
#![tactic(auto)]

pub mod cells;
pub mod fit;
pub mod fonts;
pub mod glyph;
pub mod paint;
pub mod screen;
pub mod style;
