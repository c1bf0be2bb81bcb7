// The head in the lent record: cleared, stored, and its fields changed in place.
ghost use Rattle.std.specs.Prelude.{◌≡◌, ◌≤◌, length};
ghost use Rattle.model.specs.Glass.{glass_of};
ghost use Rattle.model.specs.Memory.{with_window};
ghost use Rattle.model.specs.Record.{head_bytes, bytes_of_head};
ghost use Rattle.model.specs.Marks.{with_dirty, update_dirty};
ghost use Rattle.model.specs.Open.{clear_head};
ghost use Rattle.model.specs.Text.{with_row, with_column, at_place, with_screen_mode, print_mode, with_print_mode, with_cursor};
ghost use Rattle.laws.specs.Record.{Passing};
ghost use Rattle.updates.specs.Update.{updated, on_head};

use marks::rect;
use model::{Head, Rect};
use owed::rects;
use record::head::{COLUMN, CURSOR, DIRTY, GRAPHICS, PRINT_MODE, ROW, SCREEN_MODE, TEXT};

// Row, column, modes, cursor and dirty as open and reset leave them.
pub fn clear_head(graphics: u16, text: u16, version: u8) -> Head
    ensures { result ≡ clear_head graphics text version }
{
    Head {
        graphics,
        text,
        row: 0,
        column: 0,
        screen: 0,
        print: 0,
        cursor: 0,
        version,
        dirty: rect::empty(),
    }
}

pub fn store_head(rec: &mut [u8], h: Head)
    requires { head_bytes ≤ length rec.old }
    ensures { rec.new ≡ with_window 0 (bytes_of_head h) rec.old }
{
    slices::store_two(rec, GRAPHICS, h.graphics);
    slices::store_two(rec, TEXT, h.text);
    slices::put_bytes(
        rec,
        ROW,
        &[h.row, h.column, h.screen, h.print, h.cursor, h.version],
    );
    rects::store_rect(rec, DIRTY, h.dirty);
}

// ---- fields of a record that passes

#[tactic(auto, using(record::proofs::Lengths::head_there, crate::proofs::Heads::row_set))]
pub fn set_row(rec: &mut [u8], row: u8)
    requires { Passing (glass_of (length rec.old)) rec.old }
    ensures { rec.new ≡ updated (on_head (with_row row)) rec.old }
{
    rec[ROW] = row;
}

#[tactic(auto, using(record::proofs::Lengths::head_there, crate::proofs::Heads::column_set))]
pub fn set_column(rec: &mut [u8], column: u8)
    requires { Passing (glass_of (length rec.old)) rec.old }
    ensures { rec.new ≡ updated (on_head (with_column column)) rec.old }
{
    rec[COLUMN] = column;
}

#[tactic(auto, using(record::proofs::Lengths::head_there, crate::proofs::Heads::same_length, crate::proofs::Heads::place_set))]
pub fn set_place(rec: &mut [u8], row: u8, column: u8)
    requires { Passing (glass_of (length rec.old)) rec.old }
    ensures { rec.new ≡ updated (on_head (at_place row column)) rec.old }
{
    rec[ROW] = row;
    rec[COLUMN] = column;
}

// Row and column 0, and a screen mode.
#[tactic(auto, using(record::proofs::Lengths::head_there, crate::proofs::Heads::same_length, crate::proofs::Heads::first_place_set))]
pub fn set_first_place(rec: &mut [u8], mode: u8)
    requires { Passing (glass_of (length rec.old)) rec.old }
    ensures { rec.new ≡ updated (on_head (λ h. at_place 0 0 (with_screen_mode mode h))) rec.old }
{
    rec[ROW] = 0;
    rec[COLUMN] = 0;
    rec[SCREEN_MODE] = mode;
}

// Flash while Inverse gives Normal.
#[tactic(auto, unfolding(model::specs::Text::print_mode))]
fn print_mode(old: u8, new: u8) -> u8
    ensures { result ≡ print_mode old new }
{
    if (old == 1) & (new == 2) { 0 } else { new }
}

pub fn set_print_mode(rec: &mut [u8], mode: u8)
    requires { Passing (glass_of (length rec.old)) rec.old }
    ensures { rec.new ≡ updated (on_head (with_print_mode mode)) rec.old }
{
    rec[PRINT_MODE] = print_mode(rec[PRINT_MODE], mode);
}

#[tactic(auto, using(record::proofs::Lengths::head_there, crate::proofs::Heads::cursor_set))]
pub fn set_cursor(rec: &mut [u8], cursor: u8)
    requires { Passing (glass_of (length rec.old)) rec.old }
    ensures { rec.new ≡ updated (on_head (with_cursor cursor)) rec.old }
{
    rec[CURSOR] = cursor;
}

#[tactic(auto, using(record::proofs::Lengths::head_there, crate::proofs::Heads::dirty_set))]
pub fn set_dirty(rec: &mut [u8], q: Rect)
    requires { Passing (glass_of (length rec.old)) rec.old }
    ensures { rec.new ≡ updated (on_head (with_dirty q)) rec.old }
{
    rects::store_rect(rec, DIRTY, q);
}

pub fn update_dirty(rec: &mut [u8], m: Rect)
    requires { Passing (glass_of (length rec.old)) rec.old }
    ensures { rec.new ≡ updated (on_head (update_dirty m)) rec.old }
{
    if rect::is_empty(m) {
        return;
    }
    rects::join_rect(rec, DIRTY, m);
}
