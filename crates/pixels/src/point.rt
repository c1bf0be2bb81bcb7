// `draw_point`, `check_point`, and the one write of a pixel that lines and ellipses use too.
ghost use Rattle.std.specs.Prelude.{◌≡◌, [], ◌∷◌, ◌*◌, ◌<◌, MatchOption};
ghost use Rattle.model.specs.Pixels.{Screen, on_screen, bit, write_pixel, draw, seen};
ghost use Rattle.model.specs.Marks.{drawn, drawn_on};
ghost use Rattle.model.specs.Points.{point_write, point, is_set};
ghost use Rattle.laws.specs.Points.{mask_of, point_byte, on_axis};
ghost use Rattle.pixels.specs.Raster.{mode_of};

use crate::raster::RasterOp;
use marks::span::{no_marks, span_marks};
use model::{Canvas, DrawMode, Marks};

const POINT_BIT_MASK: [u8; 8] = [128, 64, 32, 16, 8, 4, 2, 1];

// The bit of pixel x in its byte.
#[tactic(auto, using(laws::specs::Points::mask_at))]
pub fn point_mask(x: usize) -> u8
    ensures { result ≡ mask_of x }
{
    POINT_BIT_MASK[x % 8]
}

// A byte after a point under the mask.
#[tactic(auto, unfolding(laws::specs::Points::point_byte))]
fn point_byte(mode: DrawMode, b: u8, mask: u8) -> u8
    ensures { result ≡ point_byte mode b mask }
{
    match mode {
        DrawMode::Clear => b & !mask,
        DrawMode::Or => b | mask,
        DrawMode::Xor => b ^ mask,
        DrawMode::Unknown => b,
    }
}

// A point on the screen, under the mask of x.
#[tactic(auto, using(laws::specs::Points::place_in))]
pub fn plot_mask(canvas: Canvas, screen: &mut [u8], x: usize, y: usize, mask: u8, mode: DrawMode)
    requires screen { Screen canvas.stride canvas.height screen.old }
    requires on_screen { (x < 8 * canvas.stride) × (y < canvas.height) }
    requires mask_value { mask ≡ mask_of x }
    ensures { screen.new ≡ write_pixel canvas.stride screen.old (point_write x y mode) }
{
    let stride = canvas.stride;
    let at = stride * y + x / 8;
    let b = point_byte(mode, screen[at], mask);
    screen[at] = b;
}

// A point anywhere: off the screen it draws nothing.
#[tactic(auto, using(laws::specs::Points::seen_one, laws::specs::Points::seen_none, laws::specs::Points::on_true))]
pub fn plot_seen(canvas: Canvas, screen: &mut [u8], x: usize, y: usize, mode: DrawMode)
    requires { Screen canvas.stride canvas.height screen.old }
    ensures { screen.new ≡ draw canvas.stride (seen canvas.stride canvas.height (point_write x y mode ∷ [])) screen.old }
{
    if on_screen(canvas.stride, canvas.height, x, y) {
        let mask = point_mask(x);
        plot_mask(canvas, screen, x, y, mask, mode);
    }
}

// A point of a line of the screen, under the mask of x: beside the screen it draws nothing.
#[tactic(auto, using(laws::specs::Runs::line_in))]
fn plot_beside(canvas: Canvas, screen: &mut [u8], x: usize, y: usize, mask: u8, op: RasterOp)
    requires screen { Screen canvas.stride canvas.height screen.old }
    requires y_lt_height { y < canvas.height }
    requires mask_value { mask ≡ mask_of x }
    ensures { screen.new ≡ draw canvas.stride (seen canvas.stride canvas.height (point_write x y (mode_of op) ∷ [])) screen.old }
{
    let stride = canvas.stride;
    if x < 8 * stride {
        op.draw_mask(screen, stride * y + x / 8, mask);
    }
}

// Two points of one line, each under the mask of its own x.
#[tactic(auto, using(laws::specs::Runs::pair_drawn, laws::specs::Runs::pair_below))]
pub fn plot_pair(
    canvas: Canvas,
    screen: &mut [u8],
    x1: usize,
    x2: usize,
    y: usize,
    mask1: u8,
    mask2: u8,
    op: RasterOp,
)
    requires screen { Screen canvas.stride canvas.height screen.old }
    requires mask1_value { (mask1 ≡ mask_of x1) × (mask2 ≡ mask_of x2) }
    ensures { screen.new ≡ draw canvas.stride (seen canvas.stride canvas.height (point_write x1 y (mode_of op) ∷ point_write x2 y (mode_of op) ∷ [])) screen.old }
{
    if y < canvas.height {
        plot_beside(canvas, screen, x1, y, mask1, op);
        plot_beside(canvas, screen, x2, y, mask2, op);
    }
}

#[tactic(auto, unfolding(model::specs::Pixels::on_screen))]
pub fn on_screen(stride: usize, height: usize, x: usize, y: usize) -> bool
    requires { stride < 256 }
    ensures { result ≡ on_screen stride height x y }
{
    (x < 8 * stride) & (y < height)
}

#[tactic(auto, using(laws::specs::Points::point_on, laws::specs::Points::point_off, laws::specs::Points::on_true))]
pub fn draw_point(canvas: Canvas, screen: &mut [u8], x: u8, y: u8, mode: DrawMode) -> Marks
    requires { Screen canvas.stride canvas.height screen.old }
    ensures { drawn result screen.new ≡ drawn_on canvas.stride canvas.height (point canvas.stride canvas.height x y mode) screen.old }
{
    if on_screen(canvas.stride, canvas.height, x as usize, y as usize) {
        let mask = point_mask(x as usize);
        plot_mask(canvas, screen, x as usize, y as usize, mask, mode);
        return span_marks(x, y, x, y);
    }
    no_marks()
}

// The coordinate's place on an axis of `size` places, if it lies there.
fn axis(z: i32, size: usize) -> Option<usize>
    requires { size < 65536 }
    ensures { MatchOption result (size ≡ on_axis z size) (λ n. (n ≡ on_axis z size) × (n < size)) }
{
    if z < 0 {
        return None;
    }
    let n = z as usize;
    if n < size { Some(n) } else { None }
}

#[tactic(auto, using(laws::specs::Points::place_in))]
pub fn pixel(canvas: Canvas, screen: &[u8], x: usize, y: usize) -> bool
    requires screen { Screen canvas.stride canvas.height screen.now }
    requires on_screen { (x < 8 * canvas.stride) × (y < canvas.height) }
    ensures { result ≡ bit canvas.stride screen.now x y }
{
    let stride = canvas.stride;
    let at = stride * y + x / 8;
    let mask = point_mask(x);
    screen[at] & mask != 0
}

pub fn check_point(canvas: Canvas, screen: &[u8], x: i32, y: i32) -> bool
    requires { Screen canvas.stride canvas.height screen.now }
    ensures { result ≡ is_set canvas.stride canvas.height screen.now x y }
{
    let Some(column) = axis(x, 8 * canvas.stride) else {
        return false;
    };
    let Some(line) = axis(y, canvas.height) else {
        return false;
    };
    pixel(canvas, screen, column, line)
}
