// Lines that are neither horizontal nor vertical: the error sums are bytes, and wrap.
ghost use Rattle.std.specs.Prelude.{◌≡◌, ◌+◌, ◌%◌, ◌<◌, ◌≤◌, if◌then◌else◌, nat_le, nat_lt};
ghost use Rattle.model.specs.Pixels.{Screen, draw, seen};
ghost use Rattle.model.specs.Lines.{error_sum, stepped, next_error, slope, sloped};
ghost use Rattle.laws.specs.Slopes.{slope_by};

use model::{Canvas, DrawMode};
use pixels::point::plot_seen;

// Whether an error sum, which wraps at 256, reaches the longer distance in its turn.
fn reaches(error: u8, dist: u8, longer: u8) -> bool
    ensures { result ≡ nat_le longer (error_sum error dist) }
{
    error.wrapping_add(dist) >= longer
}

// The error sum after its turn.
#[tactic(auto, using(laws::specs::Slopes::error_left))]
fn next_error(error: u8, dist: u8, longer: u8) -> u8
    ensures { result ≡ next_error longer error dist }
{
    let sum = error.wrapping_add(dist);
    if reaches(error, dist, longer) {
        sum.wrapping_sub(longer)
    } else {
        sum
    }
}

#[tactic(auto, using(laws::specs::Slopes::step_taken, laws::specs::Slopes::step_left))]
fn step_x(x: usize, error: u8, dist: u8, longer: u8) -> usize
    requires { x < 65536 }
    ensures { result ≡ stepped longer error dist (x + 1) x }
{
    if reaches(error, dist, longer) {
        x + 1
    } else {
        x
    }
}

#[tactic(auto, using(laws::specs::Slopes::step_taken, laws::specs::Slopes::step_left))]
fn step_y(y: u8, inc: u8, error: u8, dist: u8, longer: u8) -> u8
    ensures { result ≡ stepped longer error dist ((y + inc) % 256) y }
{
    if reaches(error, dist, longer) {
        y.wrapping_add(inc)
    } else {
        y
    }
}

// The step of y: 1, or 255 for one line up.
fn inc_of(y1: u8, y2: u8) -> u8
    ensures { result ≡ (if nat_lt y1 y2 then 1 else 255) }
{
    if y1 < y2 { 1 } else { 255 }
}

// More across than down: x steps in every turn. It is no byte, since it may pass 255.
fn draw_flat(
    canvas: Canvas,
    screen: &mut [u8],
    x1: u8,
    y1: u8,
    across: u8,
    down: u8,
    inc: u8,
    mode: DrawMode,
)
    requires { Screen canvas.stride canvas.height screen.old }
    ensures { screen.new ≡ draw canvas.stride (seen canvas.stride canvas.height (slope (slope_by across down across inc) (across + 1) x1 y1 0 0 mode)) screen.old }
{
    let first = x1 as usize;
    let end = first + (across as usize) + 1;
    let mut y = y1;
    let mut error = 0u8;
    for x in first..end {
        plot_seen(canvas, screen, x, y as usize, mode);
        y = step_y(y, inc, error, down, across);
        error = next_error(error, down, across);
    }
}

// More down than across: y steps in every turn.
fn draw_steep(
    canvas: Canvas,
    screen: &mut [u8],
    x1: u8,
    y1: u8,
    across: u8,
    down: u8,
    inc: u8,
    mode: DrawMode,
)
    requires { Screen canvas.stride canvas.height screen.old }
    ensures { screen.new ≡ draw canvas.stride (seen canvas.stride canvas.height (slope (slope_by across down down inc) (down + 1) x1 y1 0 0 mode)) screen.old }
{
    let mut x = x1 as usize;
    let mut y = y1;
    let mut error = 0u8;
    for _ in 0..(down as usize) + 1 {
        plot_seen(canvas, screen, x, y as usize, mode);
        x = step_x(x, error, across, down);
        y = y.wrapping_add(inc);
        error = next_error(error, across, down);
    }
}

// From (x1, y1), the left end, to (x2, y2). The sum of the longer distance is 0 after each turn, so only the other one is kept.
#[tactic(auto, using(crate::proofs::Rules::slopes))]
pub fn draw_slope(canvas: Canvas, screen: &mut [u8], x1: u8, y1: u8, x2: u8, y2: u8, mode: DrawMode)
    requires screen { Screen canvas.stride canvas.height screen.old }
    requires x1_le_x2 { x1 ≤ x2 }
    ensures { screen.new ≡ draw canvas.stride (seen canvas.stride canvas.height (sloped x1 y1 x2 y2 mode)) screen.old }
{
    let dist_x = x2 - x1;
    let dist_y = y1.abs_diff(y2);
    let inc_y = inc_of(y1, y2);
    if dist_y <= dist_x {
        draw_flat(canvas, screen, x1, y1, dist_x, dist_y, inc_y, mode);
    } else {
        draw_steep(canvas, screen, x1, y1, dist_x, dist_y, inc_y, mode);
    }
}
