// The GLYPH test: every byte that a flush would paint is there. It changes nothing.
ghost use Rattle.std.specs.Prelude.{◌≡◌, ◌*◌, ◌+◌, ◌<◌, leb, length};
ghost use Rattle.flush.specs.Fits.{code_fits, glyph_fits, shown_fits, text_fits, entries_fit, whole_fonts};
ghost use Rattle.flush.specs.Lent.{fonts_of};

use crate::cells::{next_spot, shown_at, start};
use crate::fonts::Fonts;
use crate::glyph::digit_of;
use crate::style::Style;
use glyph_choice::glyph_of;
use model::{CellKind, Glyph, Shown};

#[tactic(auto, unfolding(crate::specs::Fits::code_fits))]
fn code_fits(ascii8: &[u8], b: u8) -> bool
    ensures { result ≡ code_fits ascii8.now b }
{
    let high = 8 * digit_of(b / 16) + 8;
    let low = 8 * digit_of(b % 16) + 8;
    (high <= ascii8.len()) & (low <= ascii8.len())
}

// The sixteen bytes of a code below 128.
fn char_fits(ascii16: &[u8], b: u8) -> bool
    ensures { result ≡ leb (16 * b + 16) (length ascii16.now) }
{
    16 * (b as usize) + 16 <= ascii16.len()
}

// Glyph `index` of thirty-two bytes lies in a font.
fn index_fits(font: &[u8], index: usize) -> bool
    ensures { result ≡ leb (32 * index + 32) (length font.now) }
{
    index < font.len() / 32
}

// Thirty-two bytes from an offset on lie in a font.
fn offset_fits(font: &[u8], at: usize) -> bool
    ensures { result ≡ leb (at + 32) (length font.now) }
{
    at <= font.len() && 32 <= font.len() - at
}

#[tactic(auto, unfolding(crate::specs::Fits::glyph_fits))]
fn glyph_fits(fonts: Fonts<'_>, lead: u8, trail: u8, g: Glyph) -> bool
    ensures { let f = fonts_of fonts.entry in result ≡ glyph_fits f.ascii8 f.gb f.emoji f.extra_font lead trail g }
{
    match g {
        Glyph::Emoji(index) => index_fits(fonts.emoji, index),
        Glyph::Gb(index) => index_fits(fonts.gb, index),
        Glyph::Extra(at) => offset_fits(fonts.extra, at),
        Glyph::Hexadecimal => code_fits(fonts.ascii8, lead) & code_fits(fonts.ascii8, trail),
    }
}

#[tactic(auto, unfolding(crate::specs::Fits::kind_fits))]
fn shown_fits(version: u8, fonts: Fonts<'_>, w: Shown) -> bool
    ensures { result ≡ shown_fits version (fonts_of fonts.entry) w }
{
    match w.kind {
        CellKind::Blank => true,
        CellKind::Single => char_fits(fonts.ascii16, w.lead),
        CellKind::Pair => {
            let g = glyph_of(version, fonts.list, w.lead, w.trail);
            glyph_fits(fonts, w.lead, w.trail, g)
        }
        CellKind::Code => code_fits(fonts.ascii8, w.lead),
    }
}

// The bytes of fonts that hold every code: digits up to F, 128 characters, 7,614 GB characters, 527 emoji.
const WHOLE_ASCII8: usize = 568;

const WHOLE_ASCII16: usize = 2048;

const WHOLE_GB: usize = 243648;

const WHOLE_EMOJI: usize = 16864;

// What every entry of the extra list names lies in the extra font.
fn entries_fit(list: &[u8], extra: &[u8]) -> bool
    ensures { result ≡ entries_fit list.now extra.now }
{
    for entry in list.chunks_exact(6) {
        if !offset_fits(extra, slices::load_four(entry, 2) as usize) {
            return false;
        }
    }
    true
}

// With such fonts and such a list any text fits, and the walk is spared.
#[tactic(auto, unfolding(crate::specs::Fits::whole_fonts))]
fn fonts_whole(fonts: Fonts<'_>) -> bool
    ensures { let f = fonts_of fonts.entry in result ≡ whole_fonts f.ascii8 f.ascii16 f.gb f.emoji f.extra_list f.extra_font }
{
    let ascii = (WHOLE_ASCII8 <= fonts.ascii8.len()) & (WHOLE_ASCII16 <= fonts.ascii16.len());
    let pairs = (WHOLE_GB <= fonts.gb.len()) & (WHOLE_EMOJI <= fonts.emoji.len());
    (ascii & pairs) & entries_fit(fonts.list, fonts.extra)
}

fn walk_fits(style: Style<'_>, text: &[u8]) -> bool
    ensures { let p = style.entry in result ≡ text_fits p.columns p.rows text.now p.version (fonts_of p.fonts) }
{
    let mut s = start();
    while s.row < style.rows {
        let w = shown_at(style.columns, style.rows, text, s);
        if !shown_fits(style.version, style.fonts, w) {
            return false;
        }
        s = next_spot(style.columns, w);
    }
    true
}

pub fn text_fits(style: Style<'_>, text: &[u8]) -> bool
    ensures { let p = style.entry in result ≡ text_fits p.columns p.rows text.now p.version (fonts_of p.fonts) }
{
    fonts_whole(style.fonts) || walk_fits(style, text)
}
