// `paint_bitmap` over the lent screen part and the bitmap's source bytes, pixel by pixel; and what the painter by bytes shares with it: what the screen shows, its marks and the source's size.
#![tactic(auto)]

mod axis;
mod clip;
mod paint;
mod source;

pub use axis::visible;
pub use clip::Clip;
pub use paint::paint_bitmap;
pub use source::{SOURCE_BYTES, source_bytes, source_fits};
