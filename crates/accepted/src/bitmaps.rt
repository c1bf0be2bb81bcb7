// Bitmaps: `paint_bitmap`, and the same by bytes.
ghost use Rattle.std.specs.Prelude.{true, ◌≡◌, [], length};
ghost use Rattle.model.specs.Glass.{glass_of};
ghost use Rattle.model.specs.Bitmaps.{source_fits};
ghost use Rattle.model.specs.Shapes.{bitmap};
ghost use Rattle.model.specs.Calls.{draw, lent, answered, done};
ghost use Rattle.record.specs.Given.{Given};

use crate::screen::draw_on_screen;
use bitmap::SOURCE_BYTES;
pub use bitmap::source_fits;
use model::PaintMode;
use record::glass::{canvas_of, glass_of};
use record::head::load_head;
use updates::update;

// The source may share bytes with the screen: it is kept as it is before the first pixel is painted.
pub fn paint_bitmap(
    rec: &mut [u8],
    memory: &mut [u8],
    address: u16,
    x: i32,
    y: i32,
    width: u8,
    height: u8,
    mode: u8,
)
    requires given { Given rec.old memory.old }
    requires source_fits { source_fits address width height ≡ true }
    ensures { answered 0 [] (lent rec.new memory.new []) ≡ done (glass_of (length rec.old)) (draw (bitmap address x y width height mode)) (lent rec.old memory.old []) }
{
    let start = address as usize;
    let count = bitmap::source_bytes(width, height);
    let end = start + count;
    let mut source = [0u8; SOURCE_BYTES];
    slices::put_bytes(&mut source, 0, &memory[start..end]);
    let mode = PaintMode::from(mode);
    draw_on_screen(rec, memory, |canvas, screen| {
        bitmap::paint_bitmap(canvas, screen, &source[..count], x, y, width, height, mode)
    });
}

pub fn paint_bitmap_by_bytes(
    rec: &mut [u8],
    memory: &mut [u8],
    address: u16,
    x: i32,
    y: i32,
    width: u8,
    height: u8,
    mode: u8,
)
    requires given { Given rec.old memory.old }
    requires source_fits { source_fits address width height ≡ true }
    ensures { answered 0 [] (lent rec.new memory.new []) ≡ done (glass_of (length rec.old)) (draw (bitmap address x y width height mode)) (lent rec.old memory.old []) }
{
    let glass = glass_of(rec.len());
    let start = address as usize;
    let from = load_head(rec).graphics as usize;
    let mode = PaintMode::from(mode);
    let m = bitmap_bytes::paint_bitmap_by_bytes(
        canvas_of(glass),
        memory,
        from,
        start,
        x,
        y,
        width,
        height,
        mode,
    );
    update::mark(rec, m);
}
