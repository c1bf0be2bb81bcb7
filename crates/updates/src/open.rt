// The record that open writes, over any bytes: zeros are a record with nothing in it; then head, keys, edge flag, and the whole screen owed to each panel.
ghost use Rattle.std.specs.Prelude.{◌≡◌, [], ◌∷◌, ◌+◌, ◌*◌, ◌≤◌, ◌<◌, length};
ghost use Rattle.model.specs.Glass.{glass_of};
ghost use Rattle.model.specs.Memory.{with_window};
ghost use Rattle.model.specs.Bytes.{words_bytes};
ghost use Rattle.model.specs.Record.{record_bytes, encode};
ghost use Rattle.model.specs.Open.{open_state};
ghost use Rattle.laws.specs.Opening.{Told};

use crate::{head, panels};
use marks::mark;
use record::glass::{canvas_of, glass_of};

// The key words, one after another.
pub fn store_keys(rec: &mut [u8], at: usize, keys: [u32; 8])
    requires { (at + 32 ≤ length rec.old) × (length keys ≡ 8) }
    ensures { rec.new ≡ with_window at (words_bytes keys) rec.old }
{
    for (i, key) in keys.iter().enumerate() {
        slices::store_four(rec, at + 4 * i, *key);
    }
}

pub fn store_edge(rec: &mut [u8], at: usize, edge: u8)
    requires { at < length rec.old }
    ensures { rec.new ≡ with_window at (edge ∷ []) rec.old }
{
    rec[at] = edge;
}

pub fn open_record(rec: &mut [u8], graphics: u16, text: u16, version: u8, keys: [u32; 8], edge: u8)
    requires { (length rec.old ≡ record_bytes (glass_of (length rec.old))) × Told (glass_of (length rec.old)) graphics text version keys edge }
    ensures { rec.new ≡ encode (glass_of (length rec.old)) (open_state (glass_of (length rec.old)) graphics text version keys edge) }
{
    let glass = glass_of(rec.len());
    slices::clear(rec);
    head::store_head(rec, head::clear_head(graphics, text, version));
    store_keys(rec, glass.keys, keys);
    store_edge(rec, glass.edge, edge);
    panels::mark_panels(rec, mark::whole_screen(canvas_of(glass)));
}
