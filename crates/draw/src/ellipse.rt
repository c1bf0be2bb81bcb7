// `draw_ellipse`: one walk along a quarter of the outline, each part drawn as it comes.
ghost use Rattle.std.specs.Prelude.{◌≡◌, ◌+◌, max, true, if◌then◌else◌, nat_lt};
ghost use Rattle.model.specs.Pixels.{Screen, draw, seen};
ghost use Rattle.model.specs.Marks.{drawn, drawn_on};
ghost use Rattle.model.specs.Ellipses.{part, parts, up, down, corners, chords, part_writes, wraps, ellipse_mark, is_point, is_nothing, ellipse, radii_fit};
ghost use Rattle.laws.specs.Ellipses.{Round};
ghost use Rattle.laws.specs.EllipseWalks.{painted};
ghost use Rattle.pixels.specs.Raster.{mode_of};
ghost use Rattle.ellipse_walk.specs.Walk.{parts_of};

use draw_lines::line::{draw_clamped, draw_hor_line, is_unknown};
use ellipse_walk::{EllipsePart, ended, next_step, start};
use marks::mark::whole_screen;
use marks::span::{no_marks, owed_as_is, owed_by_edge};
use model::{Canvas, DrawMode, Edge, Marks, Rect};
use pixels::point::{draw_point, plot_pair, point_mask};
use pixels::raster::RasterOp;

fn up(z: u8, d: u8) -> u8
    ensures { result ≡ up z d }
{
    z.wrapping_add(d)
}

fn down(z: u8, d: u8) -> u8
    ensures { result ≡ down z d }
{
    z.wrapping_sub(d)
}

// The four corners of a part; off the screen they draw nothing.
#[tactic(auto, using(crate::proofs::Rules::parts))]
fn draw_corners(canvas: Canvas, screen: &mut [u8], x: u8, y: u8, a: u8, b: u8, op: RasterOp)
    requires screen { Screen canvas.stride canvas.height screen.old }
    ensures { screen.new ≡ draw canvas.stride (seen canvas.stride canvas.height (corners x y (mode_of op) (part a b))) screen.old }
{
    let left = down(x, a) as usize;
    let right = up(x, a) as usize;
    let top = down(y, b) as usize;
    let bottom = up(y, b) as usize;
    let mask1 = point_mask(left);
    let mask2 = point_mask(right);
    plot_pair(canvas, screen, left, right, top, mask1, mask2, op);
    plot_pair(canvas, screen, left, right, bottom, mask1, mask2, op);
}

fn chord_left(left: u8, right: u8) -> u8
    ensures { result ≡ (if nat_lt right left then 0 else left) }
{
    if right < left { 0 } else { left }
}

// Two horizontals from corner to corner; where the left one wrapped, from 0. Where they are clamped none is left out, so the flag is asked for once.
#[tactic(auto, using(crate::proofs::Rules::chords))]
fn draw_chords(
    canvas: Canvas,
    screen: &mut [u8],
    edge: Edge,
    x: u8,
    y: u8,
    a: u8,
    b: u8,
    op: RasterOp,
)
    requires screen { Screen canvas.stride canvas.height screen.old }
    ensures { screen.new ≡ draw canvas.stride (seen canvas.stride canvas.height (chords canvas.stride canvas.height edge x y (mode_of op) (part a b))) screen.old }
{
    let right = up(x, a);
    let left = chord_left(down(x, a), right);
    let top = down(y, b);
    let bottom = up(y, b);
    match edge {
        Edge::Clamp => {
            draw_clamped(canvas, screen, left, right, top, op);
            draw_clamped(canvas, screen, left, right, bottom, op);
        }
        Edge::Stop => {
            draw_hor_line(canvas, screen, edge, left, right, top, op);
            draw_hor_line(canvas, screen, edge, left, right, bottom, op);
        }
    }
}

#[tactic(auto, using(crate::proofs::Rules::parts))]
fn draw_part(
    canvas: Canvas,
    screen: &mut [u8],
    edge: Edge,
    x: u8,
    y: u8,
    a: u8,
    b: u8,
    fill: bool,
    op: RasterOp,
)
    requires screen { Screen canvas.stride canvas.height screen.old }
    ensures { screen.new ≡ draw canvas.stride (seen canvas.stride canvas.height (part_writes canvas.stride canvas.height edge x y fill (mode_of op) (part a b))) screen.old }
{
    if fill {
        draw_chords(canvas, screen, edge, x, y, a, b, op);
        return;
    }
    draw_corners(canvas, screen, x, y, a, b, op);
}

// The part of a step, if it draws one.
fn draw_step(
    canvas: Canvas,
    screen: &mut [u8],
    edge: Edge,
    x: u8,
    y: u8,
    part: EllipsePart,
    fill: bool,
    op: RasterOp,
)
    requires screen { Screen canvas.stride canvas.height screen.old }
    ensures { screen.new ≡ painted canvas.stride canvas.height edge x y fill (mode_of op) (parts_of part) screen.old }
{
    if let EllipsePart::At(a, b) = part {
        draw_part(canvas, screen, edge, x, y, a, b, fill, op);
    }
}

fn draw_walk(
    canvas: Canvas,
    screen: &mut [u8],
    edge: Edge,
    x: u8,
    y: u8,
    rx: u8,
    ry: u8,
    fill: bool,
    op: RasterOp,
)
    requires screen { Screen canvas.stride canvas.height screen.old }
    requires round { Round rx ry }
    ensures { screen.new ≡ painted canvas.stride canvas.height edge x y fill (mode_of op) (parts rx ry) screen.old }
{
    let r = rx.max(ry);
    let mut w = start(r, rx);
    let mut part = EllipsePart::At(rx, 0);
    let mut last = false;
    loop {
        draw_step(canvas, screen, edge, x, y, part, fill, op);
        if last {
            break;
        }
        let s = next_step(w, r, rx, ry);
        part = s.part;
        w = s.walk;
        last = ended(w);
    }
}

// ---- marks

#[tactic(auto, unfolding(model::specs::Ellipses::wraps))]
fn wraps(x: u8, y: u8, rx: u8, ry: u8) -> bool
    ensures { result ≡ wraps x y rx ry }
{
    let right = (x as u16) + (rx as u16);
    let bottom = (y as u16) + (ry as u16);
    ((x < rx) | (y < ry)) | ((255 < right) | (255 < bottom))
}

// One past the end, to the screen's edge at least.
fn reach(z: u8, radius: u8, edge: u16) -> u16
    ensures { result ≡ max (z + radius + 1) edge }
{
    ((z as u16) + (radius as u16) + 1).max(edge)
}

#[tactic(auto, using(crate::proofs::Rules::marks))]
fn ellipse_mark(canvas: Canvas, x: u8, y: u8, rx: u8, ry: u8) -> Rect
    ensures { result ≡ ellipse_mark canvas.stride canvas.height x y rx ry }
{
    let screen = whole_screen(canvas);
    if wraps(x, y, rx, ry) {
        return screen;
    }
    let left = (x - rx) as u16;
    let top = (y - ry) as u16;
    Rect {
        left,
        top,
        right: reach(x, rx, screen.right),
        bottom: reach(y, ry, screen.bottom),
    }
}

// ---- the whole

#[tactic(auto, unfolding(model::specs::Ellipses::is_point))]
fn is_point(rx: u8, ry: u8) -> bool
    ensures { result ≡ is_point rx ry }
{
    (rx == 0) & (ry == 0)
}

#[tactic(auto, unfolding(model::specs::Ellipses::is_nothing))]
fn is_nothing(fill: bool, mode: DrawMode) -> bool
    ensures { result ≡ is_nothing fill mode }
{
    !fill & is_unknown(mode)
}

// What RADIUS tests, after the two early returns.
#[tactic(auto, unfolding(model::specs::Ellipses::radii_fit))]
pub fn radii_fit(rx: u8, ry: u8, fill: bool, mode: DrawMode) -> bool
    ensures { result ≡ radii_fit rx ry fill mode }
{
    (is_point(rx, ry) | is_nothing(fill, mode)) | ((rx <= 127) & (ry <= 127))
}

#[tactic(auto, using(crate::proofs::Rules::ellipses))]
pub fn draw_ellipse(
    canvas: Canvas,
    screen: &mut [u8],
    edge: Edge,
    x: u8,
    y: u8,
    rx: u8,
    ry: u8,
    fill: bool,
    mode: DrawMode,
) -> Marks
    requires screen { Screen canvas.stride canvas.height screen.old }
    requires mode_value { radii_fit rx ry fill mode ≡ true }
    ensures { drawn result screen.new ≡ drawn_on canvas.stride canvas.height (ellipse canvas.stride canvas.height edge x y rx ry fill mode) screen.old }
{
    if is_point(rx, ry) {
        return draw_point(canvas, screen, x, y, mode);
    }
    if is_nothing(fill, mode) {
        return no_marks();
    }
    let op = RasterOp::from(mode);
    draw_walk(canvas, screen, edge, x, y, rx, ry, fill, op);
    if fill {
        return owed_by_edge(canvas, edge, ellipse_mark(canvas, x, y, rx, ry));
    }
    owed_as_is(ellipse_mark(canvas, x, y, rx, ry))
}
