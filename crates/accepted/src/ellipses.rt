// Ellipses, and circles, which are ellipses: `draw_ellipse`.
ghost use Rattle.std.specs.Prelude.{true, ◌≡◌, [], length};
ghost use Rattle.model.specs.Glass.{glass_of};
ghost use Rattle.model.specs.Points.{draw_mode};
ghost use Rattle.model.specs.Ellipses.{radii_fit};
ghost use Rattle.model.specs.Shapes.{ellipse, filled};
ghost use Rattle.model.specs.Calls.{draw, lent, answered, done};
ghost use Rattle.record.specs.Given.{Given};

use crate::screen::draw_on_screen;
use model::DrawMode;
use record::glass::edge_of;

// What RADIUS tests.
pub fn radii_fit(rx: u8, ry: u8, fill: u8, mode: u8) -> bool
    ensures { result ≡ radii_fit rx ry (filled fill) (draw_mode mode) }
{
    draw::radii_fit(rx, ry, fill == 1, DrawMode::from(mode))
}

pub fn draw_ellipse(
    rec: &mut [u8],
    memory: &mut [u8],
    x: u8,
    y: u8,
    rx: u8,
    ry: u8,
    fill: u8,
    mode: u8,
)
    requires given { Given rec.old memory.old }
    requires radii_fit { radii_fit rx ry (filled fill) (draw_mode mode) ≡ true }
    ensures { answered 0 [] (lent rec.new memory.new []) ≡ done (glass_of (length rec.old)) (draw (ellipse x y rx ry fill mode)) (lent rec.old memory.old []) }
{
    let edge = edge_of(rec);
    let mode = DrawMode::from(mode);
    draw_on_screen(rec, memory, |canvas, screen| {
        draw::draw_ellipse(canvas, screen, edge, x, y, rx, ry, fill == 1, mode)
    });
}
