// The owed rectangles of one panel in the lent record, a rectangle for each band: they begin at byte `at`. Bands, their height and the width are numbers.
ghost use Rattle.std.specs.Prelude.{◌≡◌, ◌+◌, ◌*◌, ◌≤◌, length};
ghost use Rattle.model.specs.Bytes.{rects_at};
ghost use Rattle.model.specs.Record.{bands_fit};
ghost use Rattle.laws.specs.Owed.{Took};

use crate::rects;
use crate::rects::band_at;
use marks::rect;
use model::Rect;

// The first band that owes anything: its rectangle, which is then empty there.
pub fn take_owed(rec: &mut [u8], at: usize, bands: usize) -> Rect
    requires { at + 8 * bands ≤ length rec.old }
    ensures { Took bands at rec.old result rec.new }
{
    for i in 0..bands {
        let a = band_at(at, i);
        if !rects::is_clear(rec, a) {
            let q = rects::load_rect(rec, a);
            rects::store_rect(rec, a, rect::empty());
            return q;
        }
    }
    rect::empty()
}

// STATE: each rectangle lies in its band.
pub fn bands_fit(rec: &[u8], at: usize, bands: usize, band: u16, width: u16) -> bool
    requires { (at + 8 * bands ≤ length rec.now) × (bands * band ≤ 65535) }
    ensures { result ≡ bands_fit width band 0 (rects_at bands rec.now at) }
{
    let mut lo: u16 = 0;
    for i in 0..bands {
        let hi = lo + band;
        if !rects::rect_fits(rec, rects::band_at(at, i), width, lo, hi) {
            return false;
        }
        lo = hi;
    }
    true
}
