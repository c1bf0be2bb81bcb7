// Glyphs by value, and columns of bytes, painted line by line onto the lent screen.
ghost use Rattle.std.specs.Prelude.{◌≡◌, [], ◌∷◌, ◌+◌, ◌/◌, ◌%◌, ◌*◌, ◌≤◌, ◌<◌, length, get_or, take, drop};
ghost use Rattle.model.specs.Glyphs.{flipped, paint, column_stores, digit, code_stores};
ghost use Rattle.laws.specs.Glyphs.{glyph_lines, paint_lines};
ghost use Rattle.flush.specs.Rooms.{Room, part_of, PartFits, code_end};

use model::Glyph;
use model::glass::GLYPH_LINES;

fn flip(b: u8, inverse: bool) -> u8
    ensures { result ≡ flipped inverse b }
{
    if inverse { !b } else { b }
}

// One byte a line: the font's bytes from a place on, down the screen.
fn paint_column(
    stride: usize,
    screen: &mut [u8],
    top: usize,
    font: &[u8],
    from: usize,
    height: usize,
    inverse: bool,
)
    requires room { Room stride screen.old top height }
    requires bytes_are_there { from + height ≤ length font.now }
    ensures { screen.new ≡ paint (column_stores stride font.now top from inverse height) screen.old }
{
    let mut place = top;
    for b in &font[from..from + height] {
        screen[place] = flip(*b, inverse);
        place += stride;
    }
}

// The same with the flag tested once, so that each of the two loops is plain.
pub fn paint_character(
    stride: usize,
    screen: &mut [u8],
    top: usize,
    font: &[u8],
    from: usize,
    height: usize,
    inverse: bool,
)
    requires room { Room stride screen.old top height }
    requires bytes_are_there { from + height ≤ length font.now }
    ensures { screen.new ≡ paint (column_stores stride font.now top from inverse height) screen.old }
{
    if inverse {
        paint_column(stride, screen, top, font, from, height, true);
    } else {
        paint_column(stride, screen, top, font, from, height, false);
    }
}

// The bytes of a glyph of two bytes a line.
const GLYPH_BYTES: usize = 32;

// Those from a place of a font on.
fn part(font: &[u8], at: usize) -> &[u8]
    requires { at + 32 ≤ length font.now }
    ensures { result.now ≡ take 32 (drop at font.now) }
{
    &font[at..at + GLYPH_BYTES]
}

// The part of whichever font holds the glyph; nothing for hexadecimal.
#[tactic(auto, unfolding(crate::specs::Rooms::part_of))]
pub fn glyph_part<'a>(emoji: &'a [u8], gb: &'a [u8], extra: &'a [u8], g: Glyph) -> &'a [u8]
    requires { PartFits emoji.now gb.now extra.now g }
    ensures { result.now ≡ part_of emoji.now gb.now extra.now g }
{
    match g {
        Glyph::Emoji(index) => part(emoji, GLYPH_BYTES * index),
        Glyph::Gb(index) => part(gb, GLYPH_BYTES * index),
        Glyph::Extra(at) => part(extra, at),
        Glyph::Hexadecimal => &extra[..0],
    }
}

// The thirty-two bytes as sixteen lines of two.
pub fn load_glyph(part: &[u8]) -> [[u8; 2]; GLYPH_LINES]
    requires { length part.now ≡ 32 }
    ensures { result ≡ glyph_lines part.now 0 16 }
{
    let mut lines = [[0; 2]; GLYPH_LINES];
    lines.copy_from_slice(part.as_chunks::<2>().0);
    lines
}

// Line by line, each half inverted by itself, down from two places.
fn paint_glyph(
    stride: usize,
    screen: &mut [u8],
    left: usize,
    right: usize,
    g: [[u8; 2]; GLYPH_LINES],
    inverse: bool,
    inverse2: bool,
)
    requires left_room { Room stride screen.old left 16 }
    requires right_room { Room stride screen.old right 16 }
    requires sixteen_lines { length g ≡ 16 }
    ensures { screen.new ≡ paint_lines stride left right inverse inverse2 g screen.old }
{
    let mut l = left;
    let mut r = right;
    for &line in &g {
        screen[l] = flip(line[0], inverse);
        screen[r] = flip(line[1], inverse2);
        l += stride;
        r += stride;
    }
}

// The same with the flags tested once where neither half is inverted.
pub fn paint_halves(
    stride: usize,
    screen: &mut [u8],
    left: usize,
    right: usize,
    g: [[u8; 2]; GLYPH_LINES],
    inverse: bool,
    inverse2: bool,
)
    requires left_room { Room stride screen.old left 16 }
    requires right_room { Room stride screen.old right 16 }
    requires sixteen_lines { length g ≡ 16 }
    ensures { screen.new ≡ paint_lines stride left right inverse inverse2 g screen.old }
{
    if inverse | inverse2 {
        paint_glyph(stride, screen, left, right, g, inverse, inverse2);
    } else {
        paint_glyph(stride, screen, left, right, g, false, false);
    }
}

// The character of a hexadecimal digit.
pub fn digit_of(n: u8) -> usize
    requires { n < 16 }
    ensures { (result ≡ digit n) × (result ≤ 70) }
{
    if n < 10 {
        48 + (n as usize)
    } else {
        55 + (n as usize)
    }
}

// A byte in hexadecimal: the high digit, and the low one eight lines under it.
pub fn paint_code(stride: usize, screen: &mut [u8], top: usize, ascii8: &[u8], b: u8)
    requires room { Room stride screen.old top 16 }
    requires digits_are_there { code_end b ≤ length ascii8.now }
    ensures { screen.new ≡ paint (code_stores stride ascii8.now top b) screen.old }
{
    let high = 8 * digit_of(b / 16);
    let low = 8 * digit_of(b % 16);
    paint_column(stride, screen, top, ascii8, high, 8, false);
    paint_column(stride, screen, top + 8 * stride, ascii8, low, 8, false);
}
