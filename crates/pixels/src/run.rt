// A run of a line, by bytes: a mask for its first byte, a mask for its last, whole bytes between them.
ghost use Rattle.std.specs.Prelude.{◌≡◌, suc, ◌-◌, ◌*◌, ◌≤◌, ◌<◌, length};
ghost use Rattle.model.specs.Pixels.{Screen, draw};
ghost use Rattle.model.specs.Lines.{pixel_run};
ghost use Rattle.laws.specs.Masks.{start_mask, end_mask};
ghost use Rattle.laws.specs.Runs.{masked_bytes};
ghost use Rattle.pixels.specs.Raster.{mode_of};

use crate::raster::RasterOp;
use model::Canvas;

// The pixels of x's byte from x on.
pub fn start_mask(x: usize) -> u8
    ensures { result ≡ start_mask x }
{
    let k = (x % 8) as u8;
    255u8 >> k
}

// The pixels of x's byte up to x.
pub fn end_mask(x: usize) -> u8
    ensures { result ≡ end_mask x }
{
    let k = (x % 8) as u8;
    !(127u8 >> k)
}

// The bytes from `from` up to `to`, whole.
pub fn draw_bytes(screen: &mut [u8], from: usize, to: usize, op: RasterOp)
    requires { (from ≤ to) × (to ≤ length screen.old) }
    ensures { screen.new ≡ masked_bytes screen.old from (to - from) (mode_of op) }
{
    for at in from..to {
        op.draw_mask(screen, at, 255);
    }
}

// The pixels of line y from left to right, all on the screen.
#[tactic(auto, using(laws::specs::Runs::line_in))]
pub fn draw_run(
    canvas: Canvas,
    screen: &mut [u8],
    left: usize,
    right: usize,
    y: usize,
    op: RasterOp,
)
    requires screen { Screen canvas.stride canvas.height screen.old }
    requires on_line { (left ≤ right) × (right < 8 * canvas.stride) × (y < canvas.height) }
    ensures { screen.new ≡ draw canvas.stride (pixel_run left y (suc (right - left)) (mode_of op)) screen.old }
{
    let stride = canvas.stride;
    let line = stride * y;
    let first = left / 8;
    let last = right / 8;
    let start = start_mask(left);
    let end = end_mask(right);
    if first == last {
        op.draw_mask(screen, line + first, start & end);
        return;
    }
    op.draw_mask(screen, line + first, start);
    draw_bytes(screen, line + first + 1, line + last, op);
    op.draw_mask(screen, line + last, end);
}
