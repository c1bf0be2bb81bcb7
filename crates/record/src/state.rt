// STATE: what every part of a record must be, for the glass that is told.
ghost use Rattle.std.specs.Prelude.{◌≡◌, ◌<◌, length};
ghost use Rattle.model.specs.Glass.{geometry};
ghost use Rattle.model.specs.Record.{at, panel, record_bytes, pending_of, windows, head_fits, edge_fits, pending_fits, valid};
ghost use Rattle.laws.specs.StateTest.{panels_fit};

use crate::{head, panels};
use marks::rect;
use model::Head;
use model::glass::Glass;
use owed::{bands, rects};

// WINDOW: both windows lie in memory and share no byte.
#[tactic(auto, using(laws::specs::StateTest::windows_is))]
pub fn windows_fit(glass: Glass, graphics: u16, text: u16) -> bool
    ensures { result ≡ windows (geometry glass) graphics text }
{
    (graphics <= glass.graphics)
        & (text <= glass.text)
        & (((graphics as usize) + glass.screen <= (text as usize))
            | ((text as usize) + glass.cells <= (graphics as usize)))
}

#[tactic(auto, using(laws::specs::StateTest::head_is))]
fn head_fits(glass: Glass, h: Head) -> bool
    ensures { result ≡ head_fits (geometry glass) h }
{
    let dirty = h.dirty;
    windows_fit(glass, h.graphics, h.text)
        & ((h.row as usize) < glass.rows)
        & ((h.column as usize) < glass.columns)
        & (h.screen <= 1)
        & (h.print <= 2)
        & (h.cursor <= 2)
        & (h.version <= 1)
        & rect::rect_fits(256, 0, 256, dirty)
}

// Whether an edge flag is listed.
pub fn edge_fits(edge: u8) -> bool
    ensures { result ≡ edge_fits edge }
{
    edge <= 1
}

fn pending_fits(rec: &[u8], glass: Glass, k: usize) -> bool
    requires { (length rec.now ≡ record_bytes (geometry glass)) × (k < glass.panels) }
    ensures { result ≡ pending_fits (geometry glass) (pending_of (geometry glass) rec.now (at (geometry glass) (panel k))) }
{
    let a = panels::panel_at(glass, k);
    let bands = glass.bands;
    bands::bands_fit(rec, a, bands, glass.band, glass.width)
        && rects::rect_fits(rec, a + 8 * bands, glass.width, 0, glass.height)
}

fn panels_fit(rec: &[u8], glass: Glass) -> bool
    requires { length rec.now ≡ record_bytes (geometry glass) }
    ensures { result ≡ panels_fit (geometry glass) rec.now 0 glass.panels }
{
    let panels = glass.panels;
    for k in 0..panels {
        if !pending_fits(rec, glass, k) {
            return false;
        }
    }
    true
}

// Whether the record passes STATE. It returns at the first part that fails: tests joined by `&` would keep all their answers at once.
pub fn is_valid(rec: &[u8], glass: Glass) -> bool
    requires { length rec.now ≡ record_bytes (geometry glass) }
    ensures { result ≡ valid (geometry glass) rec.now }
{
    let from = glass.flags;
    let to = glass.others;
    let at = glass.edge;
    if !head_fits(glass, head::load_head(rec)) {
        return false;
    }
    if !edge_fits(rec[at]) {
        return false;
    }
    if !panels_fit(rec, glass) {
        return false;
    }
    flags::flags_fit(&rec[from..to], glass.cells)
}
