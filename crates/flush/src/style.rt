// How a flush shows a text: of so many rows and columns, with a flag for each cell, and by the fonts that are lent.
ghost use Rattle.std.specs.Prelude.{◌≡◌, length};
ghost use Rattle.model.specs.Flags.{flag_bytes};
ghost use Rattle.flush.specs.Rooms.{TextSize};

use crate::fonts::Fonts;

#[derive(Clone, Copy)]
pub struct Style<'a> {
    pub columns: usize,
    pub rows: usize,
    // which cells are shown inverted, of so many
    pub cells: usize,
    pub flags: &'a [u8],
    // the emoji's
    pub version: u8,
    pub fonts: Fonts<'a>,
    ghost size: { TextSize columns rows },
    ghost flags_sized: { length flags.now ≡ flag_bytes cells },
}
