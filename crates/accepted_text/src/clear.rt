// `cls` and `set_screen_mode`.
ghost use Rattle.std.specs.Prelude.{◌≡◌, [], ◌+◌, ◌≤◌, length};
ghost use Rattle.model.specs.Glass.{geometry, glass_of};
ghost use Rattle.model.specs.Text.{cleared_memory};
ghost use Rattle.model.specs.Calls.{cls, set_screen_mode, lent, answered, done};
ghost use Rattle.record.specs.Given.{Given};

use crate::window::window;
use marks::mark;
use model::Head;
use model::glass::Glass;
use record::glass::{canvas_of, glass_of};
use record::head::load_head;
use updates::{head, update};

// Text and screen.
fn clear_windows(memory: &mut [u8], glass: Glass, h: Head)
    requires { (h.text + glass.cells ≤ length memory.old) × (h.graphics + glass.screen ≤ length memory.old) }
    ensures { memory.new ≡ cleared_memory (geometry glass) h memory.old }
{
    slices::clear(&mut memory[window(h.text, glass.cells)]);
    slices::clear(&mut memory[window(h.graphics, glass.screen)]);
}

pub fn set_screen_mode(rec: &mut [u8], memory: &mut [u8], mode: u8)
    requires { Given rec.old memory.old }
    ensures { answered 0 [] (lent rec.new memory.new []) ≡ done (glass_of (length rec.old)) (set_screen_mode mode) (lent rec.old memory.old []) }
{
    let glass = glass_of(rec.len());
    clear_windows(memory, glass, load_head(rec));
    update::clear_flags(rec);
    update::mark(rec, mark::whole_marks(canvas_of(glass)));
    head::set_first_place(rec, mode);
}

// The screen mode stays.
pub fn cls(rec: &mut [u8], memory: &mut [u8])
    requires { Given rec.old memory.old }
    ensures { answered 0 [] (lent rec.new memory.new []) ≡ done (glass_of (length rec.old)) cls (lent rec.old memory.old []) }
{
    let mode = load_head(rec).screen;
    set_screen_mode(rec, memory, mode);
}
