// What the screen shows of a bitmap: some of its columns and lines, or nothing.
ghost use Rattle.std.specs.Prelude.{◌≡◌, ◌+◌, ◌-◌, ◌*◌, ◌≤◌, ◌<◌, MatchOption};
ghost use Rattle.laws.specs.Points.{both};
ghost use Rattle.laws.specs.Bitmaps.{visible_mark};

use crate::axis::visible;
use crate::source::source_stride;
use marks::span::owed_as_is;
use model::{Canvas, Marks, Rect, Visible};

// The columns and lines of a picture that are painted on a canvas: there are some, and they lie on both.
#[derive(Clone, Copy)]
pub struct Clip {
    pub canvas: Canvas,
    pub picture: Canvas,
    pub across: Visible,
    pub down: Visible,
    pub ghost low: { picture.height < 256 },
    pub ghost columns: { (across.from < across.to) × (across.to ≤ 8 * canvas.stride) × (across.skip + (across.to - across.from) ≤ 8 * picture.stride) },
    pub ghost lines: { (down.from < down.to) × (down.to ≤ canvas.height) × (down.skip + (down.to - down.from) ≤ picture.height) },
}

impl Clip {
    ghost use Rattle.bitmap.specs.Clips.{Hidden, Clips};

    // What `canvas` shows of a bitmap of width by lines pixels at (x, y).
    pub fn new(canvas: Canvas, x: i32, y: i32, width: u8, lines: u8) -> Option<Clip>
        ensures { MatchOption result (Hidden canvas x y width lines) (λ c. Clips canvas x y width lines c) }
    {
        let across = visible(x, width as usize, 8 * canvas.stride);
        let down = visible(y, lines as usize, canvas.height);
        if across.to <= across.from || down.to <= down.from {
            return None;
        }
        let picture = Canvas {
            stride: source_stride(width),
            height: lines as usize,
        };
        Some(Clip {
            canvas,
            picture,
            across,
            down,
        })
    }

    pub fn marks(self) -> Marks
        ensures { result ≡ both (visible_mark self.across self.down) }
    {
        let area = Rect {
            left: self.across.from as u16,
            top: self.down.from as u16,
            right: self.across.to as u16,
            bottom: self.down.to as u16,
        };
        owed_as_is(area)
    }
}
