// `blink_cursor` and `clear_cursor`.
ghost use Rattle.std.specs.Prelude.{◌≡◌, [], ◌+◌, ◌*◌, ◌≤◌, length};
ghost use Rattle.model.specs.declared.Edge.TheVariants.{Clamp};
ghost use Rattle.model.specs.Geometry.{glyph_height};
ghost use Rattle.model.specs.Glass.{geometry, glass_of};
ghost use Rattle.model.specs.Pixels.{Screen};
ghost use Rattle.model.specs.Marks.{drawn, drawn_on};
ghost use Rattle.model.specs.Cursor.{cursor_for, blink_of, blink_next, cursor_box, under_cursor};
ghost use Rattle.model.specs.Calls.{blink_cursor, clear_cursor, lent, answered, done};
ghost use Rattle.laws.specs.Record.{Numbers};
ghost use Rattle.record.specs.Given.{Given};

use crate::window::window;
use model::glass::{GLYPH_HEIGHT, Glass};
use model::{Canvas, DrawMode, Edge, Head, Marks};
use record::glass::{canvas_of, glass_of};
use record::head::load_head;
use updates::{head, update};

// Half or full, by the byte under it.
#[tactic(auto, unfolding(model::specs::Cursor::cursor_for))]
fn cursor_for(b: u8) -> u8
    ensures { result ≡ cursor_for b }
{
    if b >= 128 { 2 } else { 1 }
}

// The one that a blink inverts: the one that is shown, or the one that comes.
#[tactic(auto, unfolding(model::specs::Cursor::blink_of))]
fn blink_of(cursor: u8, b: u8) -> u8
    ensures { result ≡ blink_of cursor b }
{
    if cursor == 0 { cursor_for(b) } else { cursor }
}

// The one that is shown afterwards.
#[tactic(auto, unfolding(model::specs::Cursor::blink_next))]
fn blink_next(cursor: u8, b: u8) -> u8
    ensures { result ≡ blink_next cursor b }
{
    if cursor == 0 { cursor_for(b) } else { 0 }
}

fn under_cursor(memory: &[u8], glass: Glass, h: Head) -> u8
    requires numbers { Numbers (geometry glass) h }
    requires text_in_memory { h.text + glass.cells ≤ length memory.now }
    ensures { result ≡ under_cursor (geometry glass) h memory.now }
{
    let text = h.text as usize;
    let cell = (h.row as usize) * glass.columns + (h.column as usize);
    memory[text + cell]
}

// A full cursor at the last column inverts that column alone and marks the next too: the box is clamped to the screen. One that stops at the edge is the same,
// so the edge flag is not asked for.
fn invert_cursor(canvas: Canvas, screen: &mut [u8], row: u8, column: u8, cursor: u8) -> Marks
    requires screen { Screen canvas.stride canvas.height screen.old }
    requires box_fits { (glyph_height * row + glyph_height ≤ 256) × (8 * column + 16 ≤ 256) × (1 ≤ cursor) × (cursor ≤ 2) }
    ensures { drawn result screen.new ≡ drawn_on canvas.stride canvas.height (cursor_box canvas.stride canvas.height Clamp row column cursor) screen.old }
{
    let left = 8 * column;
    let top = GLYPH_HEIGHT * row;
    let right = left + (8 * cursor - 1);
    let bottom = top + (GLYPH_HEIGHT - 1);
    let edge = Edge::Clamp;
    let mode = DrawMode::Xor;
    draw::draw_filled_box(canvas, screen, edge, left, top, right, bottom, mode)
}

// In Graph nothing.
pub fn blink_cursor(rec: &mut [u8], memory: &mut [u8])
    requires { Given rec.old memory.old }
    ensures { answered 0 [] (lent rec.new memory.new []) ≡ done (glass_of (length rec.old)) blink_cursor (lent rec.old memory.old []) }
{
    let glass = glass_of(rec.len());
    let h = load_head(rec);
    let screen = h.screen;
    if screen != 0 {
        return;
    }
    let b = under_cursor(memory, glass, h);
    let cursor = blink_of(h.cursor, b);
    let m = invert_cursor(
        canvas_of(glass),
        &mut memory[window(h.graphics, glass.screen)],
        h.row,
        h.column,
        cursor,
    );
    head::set_cursor(rec, blink_next(h.cursor, b));
    update::mark(rec, m);
}

pub fn clear_cursor(rec: &mut [u8], memory: &mut [u8])
    requires { Given rec.old memory.old }
    ensures { answered 0 [] (lent rec.new memory.new []) ≡ done (glass_of (length rec.old)) clear_cursor (lent rec.old memory.old []) }
{
    let h = load_head(rec);
    let cursor = h.cursor;
    let screen = h.screen;
    if cursor == 0 {
        return;
    }
    if screen == 0 {
        blink_cursor(rec, memory);
        return;
    }
    head::set_cursor(rec, 0);
}
