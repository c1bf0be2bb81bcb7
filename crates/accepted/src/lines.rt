// Lines and boxes: `draw_line` and `draw_box`.
ghost use Rattle.std.specs.Prelude.{◌≡◌, [], length};
ghost use Rattle.model.specs.Glass.{glass_of};
ghost use Rattle.model.specs.Shapes.{line, box, fill_fits};
ghost use Rattle.model.specs.Calls.{draw, lent, answered, done};
ghost use Rattle.record.specs.Given.{Given};

use crate::screen::draw_on_screen;
use model::DrawMode;
use record::glass::edge_of;

pub fn draw_line(rec: &mut [u8], memory: &mut [u8], x1: u8, y1: u8, x2: u8, y2: u8, mode: u8)
    requires { Given rec.old memory.old }
    ensures { answered 0 [] (lent rec.new memory.new []) ≡ done (glass_of (length rec.old)) (draw (line x1 y1 x2 y2 mode)) (lent rec.old memory.old []) }
{
    let edge = edge_of(rec);
    let mode = DrawMode::from(mode);
    draw_on_screen(rec, memory, |canvas, screen| {
        draw::draw_line(canvas, screen, edge, x1, y1, x2, y2, mode)
    });
}

// Whether fill flag and mode are listed.
pub fn fill_fits(fill: u8, mode: u8) -> bool
    ensures { result ≡ fill_fits fill mode }
{
    (fill <= 1) & (mode <= 3)
}

pub fn draw_box(
    rec: &mut [u8],
    memory: &mut [u8],
    x1: u8,
    y1: u8,
    x2: u8,
    y2: u8,
    fill: u8,
    mode: u8,
)
    requires { Given rec.old memory.old }
    ensures { answered 0 [] (lent rec.new memory.new []) ≡ done (glass_of (length rec.old)) (draw (box x1 y1 x2 y2 fill mode)) (lent rec.old memory.old []) }
{
    let edge = edge_of(rec);
    let mode = DrawMode::from(mode);
    draw_on_screen(rec, memory, |canvas, screen| {
        draw::draw_box(canvas, screen, edge, x1, y1, x2, y2, fill == 1, mode)
    });
}
