// `draw_line`, and the horizontals and verticals that boxes are made of.
ghost use Rattle.std.specs.Prelude.{◌≡◌, ◌+◌, ◌*◌, ◌<◌, ◌≤◌};
ghost use Rattle.model.specs.Pixels.{Screen, draw, seen};
ghost use Rattle.model.specs.Marks.{drawn, drawn_on};
ghost use Rattle.model.specs.Lines.{is_unknown, clamped, horizontal, horizontal_line, pixel_column, vertical, vertical_line, sloped_line, line};
ghost use Rattle.laws.specs.Lines.{beyond};
ghost use Rattle.pixels.specs.Raster.{mode_of};

use crate::slope::draw_slope;
use marks::span::{clamp, edge_marks, no_marks, span_marks};
use model::{Canvas, DrawMode, Edge, Marks};
use pixels::point::{on_screen, plot_mask, point_mask};
use pixels::raster::RasterOp;
use pixels::run::draw_run;

#[tactic(auto, unfolding(model::specs::Lines::is_unknown))]
pub fn is_unknown(mode: DrawMode) -> bool
    ensures { result ≡ is_unknown mode }
{
    matches!(mode, DrawMode::Unknown)
}

// Whether lines stop at the edge and (x, y) lies off the screen: from there on they draw nothing.
#[tactic(auto, unfolding(laws::specs::Lines::beyond))]
pub fn is_beyond(stride: usize, height: usize, edge: Edge, x: u8, y: u8) -> bool
    requires { stride ≤ 32 }
    ensures { result ≡ beyond stride height edge x y }
{
    let off = !on_screen(stride, height, x as usize, y as usize);
    match edge {
        Edge::Clamp => false,
        Edge::Stop => off,
    }
}

// Clamped to the screen, not clipped.
#[tactic(auto, using(crate::proofs::Rules::horizontals))]
pub fn draw_clamped(canvas: Canvas, screen: &mut [u8], left: u8, right: u8, y: u8, op: RasterOp)
    requires screen { Screen canvas.stride canvas.height screen.old }
    requires left_le_right { left ≤ right }
    ensures { screen.new ≡ draw canvas.stride (seen canvas.stride canvas.height (clamped canvas.stride canvas.height left right y (mode_of op))) screen.old }
{
    let stride = canvas.stride;
    let height = canvas.height;
    let first = clamp(left as usize, 8 * stride);
    let last = clamp(right as usize, 8 * stride);
    let line = clamp(y as usize, height);
    draw_run(canvas, screen, first, last, line, op);
}

// Where it stops at the edge it is nothing, or on the screen, and there it is the clamped one.
#[tactic(auto, using(crate::proofs::Rules::horizontals))]
pub fn draw_hor_line(
    canvas: Canvas,
    screen: &mut [u8],
    edge: Edge,
    left: u8,
    right: u8,
    y: u8,
    op: RasterOp,
)
    requires screen { Screen canvas.stride canvas.height screen.old }
    requires left_le_right { left ≤ right }
    ensures { screen.new ≡ draw canvas.stride (seen canvas.stride canvas.height (horizontal canvas.stride canvas.height edge left right y (mode_of op))) screen.old }
{
    if is_beyond(canvas.stride, canvas.height, edge, left, y) {
        return;
    }
    draw_clamped(canvas, screen, left, right, y, op);
}

fn draw_column(
    canvas: Canvas,
    screen: &mut [u8],
    x: usize,
    top: usize,
    count: usize,
    mode: DrawMode,
)
    requires screen { Screen canvas.stride canvas.height screen.old }
    requires on_screen { (x < 8 * canvas.stride) × (top + count ≤ canvas.height) }
    ensures { screen.new ≡ draw canvas.stride (pixel_column x top count mode) screen.old }
{
    let mask = point_mask(x);
    for y in top..top + count {
        plot_mask(canvas, screen, x, y, mask, mode);
    }
}

// Clipped: off the screen it draws nothing.
#[tactic(auto, using(crate::proofs::Rules::verticals))]
pub fn draw_ver_line(canvas: Canvas, screen: &mut [u8], x: u8, top: u8, bottom: u8, mode: DrawMode)
    requires screen { Screen canvas.stride canvas.height screen.old }
    requires top_le_bottom { top ≤ bottom }
    ensures { screen.new ≡ draw canvas.stride (seen canvas.stride canvas.height (vertical x top bottom mode)) screen.old }
{
    let stride = canvas.stride;
    let height = canvas.height;
    let column = x as usize;
    let first = top as usize;
    if column < 8 * stride {
        if first < height {
            let last = clamp(bottom as usize, height);
            draw_column(canvas, screen, column, first, last - first + 1, mode);
        }
    }
}

// ---- with their marks

#[tactic(auto, using(crate::proofs::Rules::horizontals))]
fn draw_horizontal(
    canvas: Canvas,
    screen: &mut [u8],
    edge: Edge,
    left: u8,
    right: u8,
    y: u8,
    mode: DrawMode,
) -> Marks
    requires screen { Screen canvas.stride canvas.height screen.old }
    requires left_le_right { left ≤ right }
    ensures { drawn result screen.new ≡ drawn_on canvas.stride canvas.height (horizontal_line canvas.stride canvas.height edge left right y mode) screen.old }
{
    draw_hor_line(canvas, screen, edge, left, right, y, RasterOp::from(mode));
    edge_marks(canvas, edge, left, y, right, y)
}

#[tactic(auto, using(crate::proofs::Rules::verticals))]
fn draw_vertical(
    canvas: Canvas,
    screen: &mut [u8],
    x: u8,
    top: u8,
    bottom: u8,
    mode: DrawMode,
) -> Marks
    requires screen { Screen canvas.stride canvas.height screen.old }
    requires top_le_bottom { top ≤ bottom }
    ensures { drawn result screen.new ≡ drawn_on canvas.stride canvas.height (vertical_line x top bottom mode) screen.old }
{
    draw_ver_line(canvas, screen, x, top, bottom, mode);
    span_marks(x, top, x, bottom)
}

#[tactic(auto, using(crate::proofs::Rules::slopes))]
fn draw_sloped(
    canvas: Canvas,
    screen: &mut [u8],
    x1: u8,
    y1: u8,
    x2: u8,
    y2: u8,
    mode: DrawMode,
) -> Marks
    requires screen { Screen canvas.stride canvas.height screen.old }
    requires x1_lt_x2 { x1 < x2 }
    ensures { drawn result screen.new ≡ drawn_on canvas.stride canvas.height (sloped_line x1 y1 x2 y2 mode) screen.old }
{
    draw_slope(canvas, screen, x1, y1, x2, y2, mode);
    span_marks(x1, y1.min(y2), x2, y1.max(y2))
}

#[tactic(auto, using(crate::proofs::Rules::lines))]
pub fn draw_line(
    canvas: Canvas,
    screen: &mut [u8],
    edge: Edge,
    x1: u8,
    y1: u8,
    x2: u8,
    y2: u8,
    mode: DrawMode,
) -> Marks
    requires { Screen canvas.stride canvas.height screen.old }
    ensures { drawn result screen.new ≡ drawn_on canvas.stride canvas.height (line canvas.stride canvas.height edge x1 y1 x2 y2 mode) screen.old }
{
    if y1 == y2 {
        return draw_horizontal(canvas, screen, edge, x1.min(x2), x1.max(x2), y1, mode);
    }
    if is_unknown(mode) {
        return no_marks();
    }
    if x1 == x2 {
        return draw_vertical(canvas, screen, x1, y1.min(y2), y1.max(y2), mode);
    }
    let (left_y, right_y) = if x2 < x1 { (y2, y1) } else { (y1, y2) };
    draw_sloped(
        canvas,
        screen,
        x1.min(x2),
        left_y,
        x1.max(x2),
        right_y,
        mode,
    )
}
