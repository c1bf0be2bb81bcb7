// `draw_box`, filled and as an outline.
ghost use Rattle.std.specs.Prelude.{◌≡◌, ◌<◌, true};
ghost use Rattle.model.specs.Pixels.{Screen, draw, seen};
ghost use Rattle.model.specs.Marks.{drawn, drawn_on};
ghost use Rattle.model.specs.Boxes.{filled_box, outline, box};
ghost use Rattle.model.specs.declared.Edge.TheVariants.{Clamp};
ghost use Rattle.laws.specs.Boxes.{whole_lines, last_row};
ghost use Rattle.pixels.specs.Raster.{mode_of};

use crate::corners::Corners;
use draw_lines::line::{draw_hor_line, draw_ver_line, is_beyond, is_unknown};
use marks::span::{clamp, edge_marks};
use model::{Canvas, DrawMode, Edge, Marks};
use pixels::raster::RasterOp;
use pixels::run::{draw_bytes, draw_run};

// Clamped, row by row; those beyond the last line land on it again.
fn fill_rows(canvas: Canvas, screen: &mut [u8], q: Corners, op: RasterOp)
    requires { Screen canvas.stride canvas.height screen.old }
    ensures { screen.new ≡ draw canvas.stride (seen canvas.stride canvas.height (filled_box canvas.stride canvas.height Clamp q.left q.top q.right q.bottom (mode_of op))) screen.old }
{
    let stride = canvas.stride;
    let height = canvas.height;
    let first = clamp(q.left as usize, 8 * stride);
    let last = clamp(q.right as usize, 8 * stride);
    let top = q.top as usize;
    let end = (q.bottom as usize) + 1;
    for y in top..end {
        let line = clamp(y, height);
        draw_run(canvas, screen, first, last, line, op);
    }
}

// Whether the rows are whole lines of the screen.
#[tactic(auto, unfolding(laws::specs::Boxes::whole_lines))]
fn is_whole(canvas: Canvas, first: usize, last: usize, bottom: usize) -> bool
    requires { last < 256 }
    ensures { result ≡ whole_lines canvas.stride canvas.height first last bottom }
{
    let stride = canvas.stride;
    let height = canvas.height;
    (first == 0) & (last + 1 == 8 * stride) & (bottom < height)
}

// Clamped; whole lines are one run of bytes.
fn fill_clamped(canvas: Canvas, screen: &mut [u8], q: Corners, op: RasterOp)
    requires { Screen canvas.stride canvas.height screen.old }
    ensures { screen.new ≡ draw canvas.stride (seen canvas.stride canvas.height (filled_box canvas.stride canvas.height Clamp q.left q.top q.right q.bottom (mode_of op))) screen.old }
{
    let stride = canvas.stride;
    let first = clamp(q.left as usize, 8 * stride);
    let last = clamp(q.right as usize, 8 * stride);
    if is_whole(canvas, first, last, q.bottom as usize) {
        let from = stride * (q.top as usize);
        let to = stride * ((q.bottom as usize) + 1);
        draw_bytes(screen, from, to, op);
        return;
    }
    fill_rows(canvas, screen, q, op);
}

// The last row that is drawn: where lines stop at the edge, none below the screen.
#[tactic(auto, unfolding(laws::specs::Boxes::last_row))]
fn last_row(canvas: Canvas, edge: Edge, bottom: u8) -> u8
    ensures { result ≡ last_row canvas.height edge bottom }
{
    let height = canvas.height;
    match edge {
        Edge::Clamp => bottom,
        Edge::Stop => clamp(bottom as usize, height) as u8,
    }
}

// Where it stops at the edge it is nothing, or the clamped one down to the screen's last line.
#[tactic(auto, using(crate::proofs::Rules::filled))]
fn fill_box(canvas: Canvas, screen: &mut [u8], edge: Edge, q: Corners, op: RasterOp)
    requires { Screen canvas.stride canvas.height screen.old }
    ensures { screen.new ≡ draw canvas.stride (seen canvas.stride canvas.height (filled_box canvas.stride canvas.height edge q.left q.top q.right q.bottom (mode_of op))) screen.old }
{
    if is_beyond(canvas.stride, canvas.height, edge, q.left, q.top) {
        return;
    }
    let seen = Corners {
        left: q.left,
        top: q.top,
        right: q.right,
        bottom: last_row(canvas, edge, q.bottom),
    };
    fill_clamped(canvas, screen, seen, op);
}

// Two horizontals, then two verticals unless Unknown.
#[tactic(auto, using(crate::proofs::Rules::outlines))]
fn draw_outline(canvas: Canvas, screen: &mut [u8], edge: Edge, q: Corners, mode: DrawMode)
    requires { Screen canvas.stride canvas.height screen.old }
    ensures { screen.new ≡ draw canvas.stride (seen canvas.stride canvas.height (outline canvas.stride canvas.height edge q.left q.top q.right q.bottom mode)) screen.old }
{
    let op = RasterOp::from(mode);
    draw_hor_line(canvas, screen, edge, q.left, q.right, q.top, op);
    draw_hor_line(canvas, screen, edge, q.left, q.right, q.bottom, op);
    if is_unknown(mode) {
        return;
    }
    draw_ver_line(canvas, screen, q.left, q.top, q.bottom, mode);
    draw_ver_line(canvas, screen, q.right, q.top, q.bottom, mode);
}

#[tactic(auto, using(crate::proofs::Rules::boxes))]
pub fn draw_filled_box(
    canvas: Canvas,
    screen: &mut [u8],
    edge: Edge,
    x1: u8,
    y1: u8,
    x2: u8,
    y2: u8,
    mode: DrawMode,
) -> Marks
    requires { Screen canvas.stride canvas.height screen.old }
    ensures { drawn result screen.new ≡ drawn_on canvas.stride canvas.height (box canvas.stride canvas.height edge x1 y1 x2 y2 true mode) screen.old }
{
    let q = Corners::between(x1, y1, x2, y2);
    fill_box(canvas, screen, edge, q, RasterOp::from(mode));
    edge_marks(canvas, edge, q.left, q.top, q.right, q.bottom)
}

#[tactic(auto, using(crate::proofs::Rules::boxes))]
pub fn draw_box(
    canvas: Canvas,
    screen: &mut [u8],
    edge: Edge,
    x1: u8,
    y1: u8,
    x2: u8,
    y2: u8,
    fill: bool,
    mode: DrawMode,
) -> Marks
    requires { Screen canvas.stride canvas.height screen.old }
    ensures { drawn result screen.new ≡ drawn_on canvas.stride canvas.height (box canvas.stride canvas.height edge x1 y1 x2 y2 fill mode) screen.old }
{
    if fill {
        return draw_filled_box(canvas, screen, edge, x1, y1, x2, y2, mode);
    }
    let q = Corners::between(x1, y1, x2, y2);
    draw_outline(canvas, screen, edge, q, mode);
    edge_marks(canvas, edge, q.left, q.top, q.right, q.bottom)
}
