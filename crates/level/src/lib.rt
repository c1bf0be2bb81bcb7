// How far a panel is from level: the pixels that differ, counted by bytes, and the lines left.
#![tactic(auto)]

ghost use Rattle.std.specs.Prelude.{◌≡◌, ◌+◌, ◌*◌, ◌≤◌, ◌<◌, length};
ghost use Rattle.model.specs.Geometry.{base, screen_bytes};
ghost use Rattle.model.specs.Rects.{lines_of};
ghost use Rattle.model.specs.Bytes.{rect_at, rects_at};
ghost use Rattle.model.specs.Lists.{owed_lines, differing};
ghost use Rattle.laws.specs.Counts.{byte_differs};

use model::Rect;
use owed::rects;

// How many bits of two bytes differ.
fn byte_differs(a: u8, b: u8) -> u32
    ensures count { result ≡ byte_differs a b }
    ensures bound { result ≤ 8 }
{
    (a ^ b).count_ones()
}

// How many pixels differ.
pub fn count_differing(screen: &[u8], panel: &[u8]) -> u32
    requires { (length screen.now ≡ screen_bytes base) × (length panel.now ≡ screen_bytes base) }
    ensures { result ≡ differing base screen.now panel.now }
{
    let mut n = 0;
    for (a, b) in screen.iter().zip(panel) {
        n += byte_differs(*a, *b);
    }
    n
}

fn lines_of(q: Rect) -> u32
    ensures count { result ≡ lines_of q }
    ensures bound { result < 65536 }
{
    u32::from(q.bottom.saturating_sub(q.top))
}

// L: the heights of the owed rectangles, one for each band, that begin at a place, and of the rectangle in hand behind them.
pub fn lines_left(rec: &[u8], at: usize, bands: usize) -> u32
    requires { (at + 8 * bands + 12 ≤ length rec.now) × (bands ≤ 256) }
    ensures { result ≡ lines_of (rect_at rec.now (at + 8 * bands)) + owed_lines (rects_at bands rec.now at) }
{
    let mut owed = 0;
    for i in 0..bands {
        owed += lines_of(rects::load_rect(rec, rects::band_at(at, i)));
    }
    lines_of(rects::load_rect(rec, rects::band_at(at, bands))) + owed
}
