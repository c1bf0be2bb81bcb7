// Draw and paint modes by their numbers. A call refuses a number that is not listed; here it is read as the last mode's.
ghost use Rattle.std.specs.Prelude.{◌≡◌};

use crate::{DrawMode, PaintMode};

impl From<u8> for DrawMode {
    ghost use Rattle.model.specs.Points.{draw_mode};

    ghost from_gives = { λ n r. r ≡ draw_mode n };

    fn from(mode: u8) -> DrawMode {
        match mode {
            0 => DrawMode::Clear,
            1 => DrawMode::Or,
            2 => DrawMode::Xor,
            _ => DrawMode::Unknown,
        }
    }
}

impl From<u8> for PaintMode {
    ghost use Rattle.model.specs.Bitmaps.{paint_mode};

    ghost from_gives = { λ n r. r ≡ paint_mode n };

    fn from(mode: u8) -> PaintMode {
        match mode {
            0 => PaintMode::Copy,
            1 => PaintMode::Or,
            2 => PaintMode::Not,
            3 => PaintMode::And,
            _ => PaintMode::Xor,
        }
    }
}
