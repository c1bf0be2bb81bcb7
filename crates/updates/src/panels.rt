// Marks owed to each panel, in the panels' parts of the lent record. A mark asks for the glass anew: as a parameter its numbers would not be constants.
ghost use Rattle.std.specs.Prelude.{◌≡◌, false, ◌*◌, ◌<◌, length};
ghost use Rattle.model.specs.Glass.{geometry, glass_of};
ghost use Rattle.model.specs.Rects.{is_empty};
ghost use Rattle.model.specs.Record.{record_bytes};
ghost use Rattle.model.specs.Marks.{owing_each};
ghost use Rattle.laws.specs.Owed.{owed_at};
ghost use Rattle.laws.specs.Record.{Passing};
ghost use Rattle.laws.specs.Marking.{each_from, BandMarked};
ghost use Rattle.updates.specs.Update.{updated};

use marks::rect;
use model::Rect;
use model::glass::Glass;
use owed::rects;
use record::glass::glass_of;
use record::panels::panel_at;

// A rectangle, not empty, owed to each panel in band i: stored where it is the whole band, else joined to what is owed there.
fn owe_band(rec: &mut [u8], glass: Glass, i: usize, q: Rect, whole: bool)
    requires sized { (length rec.old ≡ record_bytes (geometry glass)) × (i < glass.bands) }
    requires not_empty { is_empty q ≡ false }
    ensures { rec.new ≡ each_from (geometry glass) i (λ a. owed_at whole a q) 0 glass.panels rec.old }
{
    let panels = glass.panels;
    for k in 0..panels {
        let at = panel_at(glass, k);
        rects::owe_rect(rec, rects::band_at(at, i), q, whole);
    }
}

// The mark's part in band i owed to each panel.
fn mark_band(rec: &mut [u8], glass: Glass, i: u16, m: Rect)
    requires passing { Passing (geometry glass) rec.old }
    requires i_lt_bands { i < glass.bands }
    ensures { BandMarked (geometry glass) m i rec.old rec.new }
{
    let width = glass.width;
    let lo = i * glass.band;
    let hi = lo + glass.band;
    if (m.left == 0) & (width <= m.right) & (m.top <= lo) & (hi <= m.bottom) {
        let all = Rect {
            left: 0,
            top: lo,
            right: width,
            bottom: hi,
        };
        owe_band(rec, glass, i as usize, all, true);
        return;
    }
    let q = rect::cut_rect(width, lo, hi, m);
    if rect::is_empty(q) {
        return;
    }
    owe_band(rec, glass, i as usize, q, false);
}

// A mark, cut at the edges of the screen and of the bands, owed to each panel: from the band of its top line on.
pub fn mark_panels(rec: &mut [u8], m: Rect)
    requires { Passing (glass_of (length rec.old)) rec.old }
    ensures { rec.new ≡ updated (λ g s. owing_each g m s) rec.old }
{
    let glass = glass_of(rec.len());
    let band = glass.band;
    let bottom = m.bottom.min(glass.height);
    for i in m.top / band..bottom.div_ceil(band) {
        mark_band(rec, glass, i, m);
    }
}
