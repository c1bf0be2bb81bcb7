// A draw mode as two bytes. They are made once, before a drawing's loops, which then need no branch by the mode.
ghost use Rattle.pixels.specs.Masks.{IsMasks};

use model::DrawMode;

// The pixels that are drawn are cleared by the one byte, then inverted by the other: each has all bits set, or none.
#[derive(Clone, Copy)]
pub struct RasterOp {
    pub clear: u8,
    pub flip: u8,
    ghost masks: { IsMasks clear flip },
}

// Unknown inverts, as it does in horizontals and fills.
impl From<DrawMode> for RasterOp {
    ghost use Rattle.std.specs.Prelude.{◌≡◌};
    ghost use Rattle.laws.specs.Lines.{solid};
    ghost use Rattle.pixels.specs.Raster.{mode_of};

    ghost from_gives = { λ mode op. mode_of op ≡ solid mode };

    fn from(mode: DrawMode) -> Self {
        match mode {
            DrawMode::Clear => RasterOp {
                clear: 255,
                flip: 0,
            },
            DrawMode::Or => RasterOp {
                clear: 255,
                flip: 255,
            },
            DrawMode::Xor | DrawMode::Unknown => RasterOp {
                clear: 0,
                flip: 255,
            },
        }
    }
}

impl RasterOp {
    ghost use Rattle.std.specs.Prelude.{◌≡◌, ◌<◌, length};
    ghost use Rattle.laws.specs.Runs.{mask_byte, masked};
    ghost use Rattle.pixels.specs.Raster.{mode_of};

    // A byte with the pixels of the mask drawn.
    #[tactic(auto, using(crate::specs::Raster::op_byte))]
    fn mask_byte(self, b: u8, mask: u8) -> u8
        ensures { result ≡ mask_byte (mode_of self) b mask }
    {
        (b & !(mask & self.clear)) ^ (mask & self.flip)
    }

    #[tactic(auto, unfolding(laws::specs::Runs::masked))]
    pub fn draw_mask(self, screen: &mut [u8], at: usize, mask: u8)
        requires { at < length screen.old }
        ensures { screen.new ≡ masked screen.old at mask (mode_of self) }
    {
        screen[at] = self.mask_byte(screen[at], mask);
    }
}
