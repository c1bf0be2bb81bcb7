// The screen in memory: what an accepted drawing is lent of it, and what it marks there.
ghost use Rattle.record.specs.Given.{Given};
ghost use Rattle.accepted.specs.OnScreen.{MayDraw, Drew};

use model::{Canvas, Marks};
use record::glass::{canvas_of, glass_of};
use record::head::load_head;
use updates::update;

// `f` draws on the screen in memory, and the record is marked with what it answers. It asks for the glass itself, whose numbers are constants here.
pub fn draw_on_screen<F: FnOnce(Canvas, &mut [u8]) -> Marks>(
    rec: &mut [u8],
    memory: &mut [u8],
    f: F,
)
    requires given { Given rec.old memory.old }
    requires may_draw { MayDraw (λ c s. F.pre f c s) rec.old }
    ensures { Drew (λ c s k t. F.post f c s k t) rec.old memory.old rec.new memory.new }
{
    let glass = glass_of(rec.len());
    let from = load_head(rec).graphics as usize;
    let to = from + glass.screen;
    let m = f(canvas_of(glass), &mut memory[from..to]);
    update::mark(rec, m);
}
