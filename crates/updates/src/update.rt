// A record that passes, marked or cleared. The glass is asked for anew here: as a parameter its numbers would not be constants.
ghost use Rattle.std.specs.Prelude.{◌≡◌, length};
ghost use Rattle.model.specs.Glass.{glass_of};
ghost use Rattle.model.specs.Record.{with_flags};
ghost use Rattle.model.specs.Marks.{marked};
ghost use Rattle.model.specs.Open.{clear_flags, reset_state};
ghost use Rattle.laws.specs.Record.{Passing};
ghost use Rattle.updates.specs.Update.{updated};

use crate::{head, panels};
use marks::mark;
use model::Marks;
use record::glass::{canvas_of, glass_of};
use record::head::load_head;

// Dirty in the head, and what each panel is owed.
pub fn mark(rec: &mut [u8], m: Marks)
    requires { Passing (glass_of (length rec.old)) rec.old }
    ensures { rec.new ≡ updated (λ g s. marked g m.dirty m.owed s) rec.old }
{
    let dirty = m.dirty;
    let owed = m.owed;
    panels::mark_panels(rec, owed);
    head::update_dirty(rec, dirty);
}

// No flags.
pub fn clear_flags(rec: &mut [u8])
    requires { Passing (glass_of (length rec.old)) rec.old }
    ensures { rec.new ≡ updated (λ g s. with_flags (clear_flags g) s) rec.old }
{
    let glass = glass_of(rec.len());
    let from = glass.flags;
    let to = glass.others;
    flags::clear_flags(&mut rec[from..to]);
}

// Bases, version, keys and edge flag stay, and each panel's rectangle in hand and count; the whole screen is owed to each.
pub fn reset_record(rec: &mut [u8])
    requires { Passing (glass_of (length rec.old)) rec.old }
    ensures { rec.new ≡ updated reset_state rec.old }
{
    let glass = glass_of(rec.len());
    let h = load_head(rec);
    clear_flags(rec);
    panels::mark_panels(rec, mark::whole_screen(canvas_of(glass)));
    head::store_head(rec, head::clear_head(h.graphics, h.text, h.version));
}
