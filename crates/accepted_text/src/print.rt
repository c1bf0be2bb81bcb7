// `print` and `newline`.
ghost use Rattle.std.specs.Prelude.{◌≡◌, [], ◌<◌, length};
ghost use Rattle.model.specs.Geometry.{rows, columns};
ghost use Rattle.model.specs.Glass.{glass_of};
ghost use Rattle.model.specs.Calls.{print, newline, lent, answered, done};
ghost use Rattle.record.specs.Given.{Given};
ghost use Rattle.accepted_text.specs.Pages.{place_of, PageStored};

use crate::window::window;
use marks::mark;
use model::Head;
use model::glass::GLYPH_HEIGHT;
use record::glass::{canvas_of, glass_of};
use record::head::load_head;
use text::page::Place;
use text::{page, scroll};
use updates::{head, update};

fn place_of(h: Head) -> Place
    ensures { result ≡ place_of h }
{
    Place {
        row: h.row as usize,
        column: h.column as usize,
        scrolls: 0,
    }
}

// The text and its flags have been written up to p: the screen and the record follow. Where the screen does not scroll, nothing is marked.
fn store_page(rec: &mut [u8], memory: &mut [u8], p: Place)
    requires given { Given rec.old memory.old }
    requires place_on_page { (p.row < rows (glass_of (length rec.old))) × (p.column < columns (glass_of (length rec.old))) }
    ensures { PageStored (glass_of (length rec.old)) rec.old memory.old p rec.new memory.new }
{
    let glass = glass_of(rec.len());
    let h = load_head(rec);
    head::set_place(rec, p.row as u8, p.column as u8);
    let n = scroll::screen_scrolls(h.screen, p.scrolls);
    if n == 0 {
        return;
    }
    let row_bytes = (GLYPH_HEIGHT as usize) * glass.stride;
    let screen = &mut memory[window(h.graphics, glass.screen)];
    scroll::scroll_screen(glass.rows, row_bytes, screen, n);
    let m = mark::scroll_marks(canvas_of(glass), n);
    update::mark(rec, m);
}

pub fn newline(rec: &mut [u8], memory: &mut [u8])
    requires { Given rec.old memory.old }
    ensures { answered 0 [] (lent rec.new memory.new []) ≡ done (glass_of (length rec.old)) newline (lent rec.old memory.old []) }
{
    let glass = glass_of(rec.len());
    let h = load_head(rec);
    let start = place_of(h);
    let p = page::newline(
        glass.rows,
        glass.columns,
        &mut memory[window(h.text, glass.cells)],
        &mut rec[glass.flags..glass.others],
        start,
    );
    store_page(rec, memory, p);
}

pub fn print(rec: &mut [u8], memory: &mut [u8], bytes: &[u8])
    requires { Given rec.old memory.old }
    ensures { answered 0 [] (lent rec.new memory.new []) ≡ done (glass_of (length rec.old)) (print bytes.now) (lent rec.old memory.old []) }
{
    let glass = glass_of(rec.len());
    let h = load_head(rec);
    let start = place_of(h);
    let inverse = h.print != 0;
    let p = text::print::print(
        glass.rows,
        glass.columns,
        &mut memory[window(h.text, glass.cells)],
        &mut rec[glass.flags..glass.others],
        start,
        bytes,
        inverse,
    );
    store_page(rec, memory, p);
}
