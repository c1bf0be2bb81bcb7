// What is shown, painted onto the lent screen.
ghost use Rattle.std.specs.Prelude.{true, ◌≡◌, ◌+◌, ◌*◌, ◌≤◌, ◌<◌, length};
ghost use Rattle.model.specs.Glyphs.{glyph_of, paint, column_stores};
ghost use Rattle.model.specs.Flush.{top_of, right_of, flag_at, glyph_stores, shown_stores};
ghost use Rattle.flush.specs.Fits.{glyph_fits, shown_fits};
ghost use Rattle.flush.specs.Lent.{fonts_of, flags_of};
ghost use Rattle.flush.specs.Painted.{LeftFits, PaintedTo};
ghost use Rattle.flush.specs.Rooms.{TextScreen, SpotRoom, PairRoom, ShownRoom, is_hexadecimal};

use crate::cells::{are_blank, next_spot, shown_at, spot_after};
use crate::glyph::{glyph_part, load_glyph, paint_character, paint_code, paint_halves};
use crate::style::Style;
use flags::is_inverse;
use glyph_choice::glyph_of;
use model::glass::GLYPH_LINES;
use model::{CellKind, Glyph, Shown, Spot};

// The screen byte at the top of a spot's column.
fn top_of(columns: usize, s: Spot) -> usize
    requires { (columns ≤ 32) × (s.row ≤ 16) × (s.column ≤ 32) }
    ensures { (result ≡ top_of columns s.row s.column) × (result ≤ 65535) }
{
    GLYPH_LINES * (columns * s.row) + s.column
}

// That of a pair's right half: at a row's end it falls on column 0 below.
fn right_of(columns: usize, s: Spot) -> usize
    requires { (columns ≤ 32) × (s.row ≤ 16) × (s.column ≤ 32) }
    ensures { result ≡ right_of columns s }
{
    if s.column + 1 < columns {
        GLYPH_LINES * (columns * s.row) + s.column + 1
    } else {
        GLYPH_LINES * (columns * (s.row + 1))
    }
}

// Whether a cell is shown inverted.
fn is_flagged(style: Style<'_>, cell: usize) -> bool
    ensures { result ≡ flag_at (flags_of style.entry) cell }
{
    is_inverse(style.flags, style.cells, cell)
}

#[tactic(auto, unfolding(crate::specs::Rooms::is_hexadecimal))]
fn is_hexadecimal(g: Glyph) -> bool
    ensures { result ≡ is_hexadecimal g }
{
    matches!(g, Glyph::Hexadecimal)
}

// A code below 128: its sixteen bytes, one a line.
fn paint_single(style: Style<'_>, screen: &mut [u8], s: Spot, b: u8)
    requires spot_room { SpotRoom style.columns screen.old s }
    requires character_is_there { 16 * b + 16 ≤ length style.fonts.ascii16.now }
    ensures { let p = style.entry in screen.new ≡ paint (column_stores p.columns p.fonts.ascii16.now (top_of p.columns s.row s.column) (16 * b) (flag_at (flags_of p) s.cell) 16) screen.old }
{
    let top = top_of(style.columns, s);
    let inverse = is_flagged(style, s.cell);
    let from = GLYPH_LINES * (b as usize);
    paint_character(
        style.columns,
        screen,
        top,
        style.fonts.ascii16,
        from,
        GLYPH_LINES,
        inverse,
    );
}

// A pair's glyph, or its two bytes in hexadecimal, the second one byte after the first also at a row's end.
fn paint_pair(style: Style<'_>, screen: &mut [u8], w: Shown)
    requires pair_room { PairRoom style.columns screen.old w.spot }
    requires glyph_is_there { let f = fonts_of style.fonts in glyph_fits f.ascii8 f.gb f.emoji f.extra_font w.lead w.trail (glyph_of style.version f.extra_list w.lead w.trail) ≡ true }
    ensures { let p = style.entry in let f = fonts_of p.fonts in screen.new ≡ paint (glyph_stores p.columns (flags_of p) f.ascii8 f.gb f.emoji f.extra_font w.spot w.lead w.trail (glyph_of p.version f.extra_list w.lead w.trail)) screen.old }
{
    let s = w.spot;
    let fonts = style.fonts;
    let g = glyph_of(style.version, fonts.list, w.lead, w.trail);
    let top = top_of(style.columns, s);
    if is_hexadecimal(g) {
        paint_code(style.columns, screen, top, fonts.ascii8, w.lead);
        paint_code(style.columns, screen, top + 1, fonts.ascii8, w.trail);
        return;
    }
    let glyph = load_glyph(glyph_part(fonts.emoji, fonts.gb, fonts.extra, g));
    let left = is_flagged(style, s.cell);
    let right = is_flagged(style, s.cell + 1);
    paint_halves(
        style.columns,
        screen,
        top,
        right_of(style.columns, s),
        glyph,
        left,
        right,
    );
}

fn paint_shown(style: Style<'_>, screen: &mut [u8], w: Shown)
    requires shown_room { ShownRoom style.columns screen.old w }
    requires bytes_are_there { shown_fits style.version (fonts_of style.fonts) w ≡ true }
    ensures { let p = style.entry in screen.new ≡ paint (shown_stores p.columns (flags_of p) p.version (fonts_of p.fonts) w) screen.old }
{
    match w.kind {
        CellKind::Blank => {}
        CellKind::Single => paint_single(style, screen, w.spot, w.lead),
        CellKind::Pair => paint_pair(style, screen, w),
        CellKind::Code => {
            let top = top_of(style.columns, w.spot);
            paint_code(style.columns, screen, top, style.fonts.ascii8, w.lead)
        }
    }
}

// The rest of a row, from a spot on, and the spot below it where the walk goes on. Where all its cells are blank they are stepped over at once.
pub fn paint_row(style: Style<'_>, text: &[u8], screen: &mut [u8], from: Spot) -> Spot
    requires text_screen { TextScreen style.columns style.rows screen.old }
    requires left_fits { LeftFits style.columns style.rows text.now style.version (fonts_of style.fonts) from }
    requires row_left { from.row < style.rows }
    ensures { let p = style.entry in PaintedTo p.columns p.rows text.now (flags_of p) p.version (fonts_of p.fonts) from screen.old result screen.new × (from.row < result.row) }
{
    let count = style.columns - from.column;
    if are_blank(text, from.cell, count) {
        return spot_after(style.columns, from, count);
    }
    let row = from.row;
    let mut s = from;
    while s.row == row {
        let w = shown_at(style.columns, style.rows, text, s);
        paint_shown(style, screen, w);
        s = next_spot(style.columns, w);
    }
    s
}
