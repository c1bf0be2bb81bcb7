// The painter: line by line, left to right, over the clipped rectangle.
ghost use Rattle.std.specs.Prelude.{◌≡◌, ◌+◌, ◌-◌, ◌*◌, ◌≤◌, ◌<◌, length};
ghost use Rattle.model.specs.Pixels.{Screen, write_pixel, draw};
ghost use Rattle.model.specs.Marks.{drawn, drawn_on};
ghost use Rattle.model.specs.Bitmaps.{source_bytes, painted_pixel, painted_line, painted_lines, bitmap};
ghost use Rattle.laws.specs.Bitmaps.{paint_as};

use crate::clip::Clip;
use marks::span::no_marks;
use model::{Canvas, DrawMode, Marks, PaintMode};
use pixels::point::{pixel, plot_mask, point_mask};

// The draw mode that does what the paint mode does with a source bit.
fn paint_as(mode: PaintMode, bit: bool) -> DrawMode
    ensures { result ≡ paint_as mode bit }
{
    match mode {
        PaintMode::Copy => if bit { DrawMode::Or } else { DrawMode::Clear },
        PaintMode::Or => if bit { DrawMode::Or } else { DrawMode::Unknown },
        PaintMode::Not => if bit { DrawMode::Clear } else { DrawMode::Or },
        PaintMode::And => if bit {
            DrawMode::Unknown
        } else {
            DrawMode::Clear
        },
        PaintMode::Xor => if bit {
            DrawMode::Xor
        } else {
            DrawMode::Unknown
        },
    }
}

// Pixel (x, y) of the screen by pixel (i, j) of the source, whose lines are those of the clip's picture.
fn paint_pixel(
    clip: Clip,
    screen: &mut [u8],
    source: &[u8],
    i: usize,
    j: usize,
    x: usize,
    y: usize,
    mode: PaintMode,
)
    requires screen { Screen clip.canvas.stride clip.canvas.height screen.old }
    requires source { Screen clip.picture.stride clip.picture.height source.now }
    requires inside { (i < 8 * clip.picture.stride) × (j < clip.picture.height) × (x < 8 * clip.canvas.stride) × (y < clip.canvas.height) }
    ensures { screen.new ≡ write_pixel clip.canvas.stride screen.old (painted_pixel clip.picture.stride source.now mode i j x y) }
{
    let bit = pixel(clip.picture, source, i, j);
    let mask = point_mask(x);
    plot_mask(clip.canvas, screen, x, y, mask, paint_as(mode, bit));
}

// Line y of the screen by line j of the source.
fn paint_line(clip: Clip, screen: &mut [u8], source: &[u8], j: usize, y: usize, mode: PaintMode)
    requires screen { Screen clip.canvas.stride clip.canvas.height screen.old }
    requires source { Screen clip.picture.stride clip.picture.height source.now }
    requires inside { (j < clip.picture.height) × (y < clip.canvas.height) }
    ensures { screen.new ≡ draw clip.canvas.stride (painted_line clip.picture.stride source.now mode clip.across.skip j clip.across.from y (clip.across.to - clip.across.from)) screen.old }
{
    let across = clip.across;
    for x in across.from..across.to {
        let i = across.skip + (x - across.from);
        paint_pixel(clip, screen, source, i, j, x, y, mode);
    }
}

fn paint_lines(clip: Clip, screen: &mut [u8], source: &[u8], mode: PaintMode)
    requires screen { Screen clip.canvas.stride clip.canvas.height screen.old }
    requires source { Screen clip.picture.stride clip.picture.height source.now }
    ensures { screen.new ≡ draw clip.canvas.stride (painted_lines clip.picture.stride source.now mode clip.across clip.down.skip clip.down.from (clip.down.to - clip.down.from)) screen.old }
{
    let down = clip.down;
    for y in down.from..down.to {
        let j = down.skip + (y - down.from);
        paint_line(clip, screen, source, j, y, mode);
    }
}

// A bitmap of width by lines pixels at (x, y). What lies off the screen is not painted, and where nothing is painted nothing is marked.
pub fn paint_bitmap(
    canvas: Canvas,
    screen: &mut [u8],
    source: &[u8],
    x: i32,
    y: i32,
    width: u8,
    lines: u8,
    mode: PaintMode,
) -> Marks
    requires screen { Screen canvas.stride canvas.height screen.old }
    requires source_len { length source.now ≡ source_bytes width lines }
    ensures { drawn result screen.new ≡ drawn_on canvas.stride canvas.height (bitmap canvas.stride canvas.height source.now x y width lines mode) screen.old }
{
    let Some(clip) = Clip::new(canvas, x, y, width, lines) else {
        return no_marks();
    };
    paint_lines(clip, screen, source, mode);
    clip.marks()
}
