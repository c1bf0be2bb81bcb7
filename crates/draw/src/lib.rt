// Boxes and ellipses over the lent screen part of memory; with points and lines, all that is drawn there.
#![tactic(auto)]

mod boxes;
mod corners;
mod ellipse;

pub use boxes::{draw_box, draw_filled_box};
pub use draw_lines::line::draw_line;
pub use ellipse::{draw_ellipse, radii_fit};
pub use pixels::point::{check_point, draw_point};
