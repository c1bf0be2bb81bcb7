// A flush of the lent screen: cleared in Text mode, then painted row by row.
ghost use Rattle.std.specs.Prelude.{true, ◌≡◌, length};
ghost use Rattle.model.specs.Glyphs.{paint};
ghost use Rattle.model.specs.Flush.{text_stores, cleared_in_text};
ghost use Rattle.flush.specs.Fits.{text_fits};
ghost use Rattle.flush.specs.Lent.{fonts_of, flags_of};
ghost use Rattle.flush.specs.Rooms.{TextScreen};

use crate::cells::start;
use crate::paint::paint_row;
use crate::style::Style;

fn clear_text_screen(screen: &mut [u8], mode: u8)
    ensures { screen.new ≡ cleared_in_text mode screen.old (length screen.old) }
{
    if mode == 0 {
        slices::clear(screen);
    }
}

// The text's glyphs are known to be there.
pub fn flush_screen(style: Style<'_>, text: &[u8], screen: &mut [u8], mode: u8)
    requires text_screen { TextScreen style.columns style.rows screen.old }
    requires bytes_are_there { text_fits style.columns style.rows text.now style.version (fonts_of style.fonts) ≡ true }
    ensures { let p = style.entry in screen.new ≡ paint (text_stores p.columns p.rows text.now (flags_of p) p.version (fonts_of p.fonts)) (cleared_in_text mode screen.old (length screen.old)) }
{
    clear_text_screen(screen, mode);
    let mut s = start();
    while s.row < style.rows {
        s = paint_row(style, text, screen, s);
    }
}
