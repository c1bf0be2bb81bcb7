// Points: `draw_point` and `check_point`.
ghost use Rattle.std.specs.Prelude.{◌≡◌, [], length};
ghost use Rattle.model.specs.Geometry.{height};
ghost use Rattle.model.specs.Glass.{glass_of};
ghost use Rattle.model.specs.Memory.{screen_of};
ghost use Rattle.model.specs.Record.{decode};
ghost use Rattle.model.specs.Points.{is_set};
ghost use Rattle.model.specs.Shapes.{point};
ghost use Rattle.model.specs.Calls.{draw, lent, answered, done};
ghost use Rattle.record.specs.Given.{Given};

use crate::screen::draw_on_screen;
use model::DrawMode;
use record::glass::{canvas_of, glass_of};
use record::head::load_head;

pub fn draw_point(rec: &mut [u8], memory: &mut [u8], x: u8, y: u8, mode: u8)
    requires { Given rec.old memory.old }
    ensures { answered 0 [] (lent rec.new memory.new []) ≡ done (glass_of (length rec.old)) (draw (point x y mode)) (lent rec.old memory.old []) }
{
    let mode = DrawMode::from(mode);
    draw_on_screen(rec, memory, |canvas, screen| {
        draw::draw_point(canvas, screen, x, y, mode)
    });
}

// Whether pixel (x, y) is set.
pub fn check_point(rec: &[u8], memory: &[u8], x: i32, y: i32) -> bool
    requires { Given rec.now memory.now }
    ensures { let g = glass_of (length rec.now) in result ≡ is_set g.stride (height g) (screen_of g (decode g rec.now).head.graphics memory.now) x y }
{
    let glass = glass_of(rec.len());
    let from = load_head(rec).graphics as usize;
    let to = from + glass.screen;
    draw::check_point(canvas_of(glass), &memory[from..to], x, y)
}
