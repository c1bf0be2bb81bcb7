// `flush`: the test that every byte it would paint is in its font, and the painting.
ghost use Rattle.std.specs.Prelude.{true, [], ◌≡◌, length};
ghost use Rattle.model.specs.Glass.{glass_of};
ghost use Rattle.model.specs.Calls as calls;
ghost use Rattle.model.specs.Calls.{lent, answered, done};
ghost use Rattle.flush.specs.Lent.{fonts_of};
ghost use Rattle.record.specs.Given.{Given};
ghost use Rattle.accepted_text.specs.Texts.{glyphs_fit};

use crate::window::window;
use flush::fonts::Fonts;
use flush::style::Style;
use flush::{fit, screen};
use marks::mark;
use model::glass::TEXT_BYTES;
use record::glass::{canvas_of, glass_of};
use record::head::load_head;
use updates::update;

// GLYPH: every byte that the flush would paint is in its font.
pub fn glyphs_fit(rec: &[u8], memory: &[u8], fonts: Fonts<'_>) -> bool
    requires { Given rec.now memory.now }
    ensures { result ≡ glyphs_fit rec.now memory.now (fonts_of fonts.entry) }
{
    let glass = glass_of(rec.len());
    let h = load_head(rec);
    let style = Style {
        columns: glass.columns,
        rows: glass.rows,
        cells: glass.cells,
        flags: &rec[glass.flags..glass.others],
        version: h.version,
        fonts,
    };
    fit::text_fits(style, &memory[window(h.text, glass.cells)])
}

// The text is in the memory that the screen is lent from: it is kept as it is before the first byte is painted.
pub fn flush(rec: &mut [u8], memory: &mut [u8], fonts: Fonts<'_>)
    requires given { Given rec.old memory.old }
    requires glyphs_are_there { glyphs_fit rec.old memory.old (fonts_of fonts) ≡ true }
    ensures { answered 0 [] (lent rec.new memory.new []) ≡ done (glass_of (length rec.old)) (calls.flush (fonts_of fonts.entry)) (lent rec.old memory.old []) }
{
    let glass = glass_of(rec.len());
    let h = load_head(rec);
    let mut text = [0u8; TEXT_BYTES];
    slices::put_bytes(&mut text, 0, &memory[window(h.text, glass.cells)]);
    let style = Style {
        columns: glass.columns,
        rows: glass.rows,
        cells: glass.cells,
        flags: &rec[glass.flags..glass.others],
        version: h.version,
        fonts,
    };
    let screen = &mut memory[window(h.graphics, glass.screen)];
    screen::flush_screen(style, &text[..glass.cells], screen, h.screen);
    update::mark(rec, mark::whole_marks(canvas_of(glass)));
}
