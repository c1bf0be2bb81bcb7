// A byte of memory set from outside: `write_byte`.
ghost use Rattle.std.specs.Prelude.{◌≡◌, [], ◌*◌, ◌/◌, ◌%◌, ◌<◌, length};
ghost use Rattle.model.specs.Glass.{geometry, glass_of, line_parts};
ghost use Rattle.model.specs.Record.{record_bytes, decode};
ghost use Rattle.model.specs.Poke.{ignored, in_screen, byte_rect};
ghost use Rattle.model.specs.Calls.{write_byte, lent, answered, done};
ghost use Rattle.record.specs.Given.{Given};

use marks::span::owed_as_is;
use model::Rect;
use model::glass::{Glass, RECIPROCAL_BITS, RECIPROCAL_MASK};
use record::glass::glass_of;
use record::head::load_head;
use record::keys;
use updates::update;

// Addresses from 0xe000 on and key addresses.
#[tactic(auto, unfolding(model::specs::Poke::ignored))]
fn is_ignored(rec: &[u8], glass: Glass, address: u16) -> bool
    requires { length rec.now ≡ record_bytes (geometry glass) }
    ensures { result ≡ ignored (decode (geometry glass) rec.now).keys address }
{
    (address >= 0xe000) | keys::is_key(rec, glass, address as usize)
}

#[tactic(auto, unfolding(model::specs::Poke::in_screen))]
fn in_screen(glass: Glass, graphics: u16, address: u16) -> bool
    ensures { result ≡ in_screen (geometry glass) graphics address }
{
    let end = (graphics as usize) + glass.screen;
    (graphics <= address) & ((address as usize) < end)
}

// Screen byte i counted in lines: whole ones in the bits from RECIPROCAL_BITS on, the part of one in those below.
fn in_lines(glass: Glass, i: usize) -> usize
    requires { i < glass.screen }
    ensures { result ≡ i * glass.reciprocal }
{
    i * glass.reciprocal
}

// The part of a line in such a count.
fn part_of(lines: usize) -> usize
    ensures { result ≡ lines % line_parts }
{
    lines & RECIPROCAL_MASK
}

// The line of screen byte i: the whole lines before it.
#[tactic(auto, using(crate::proofs::Poking::line_found))]
fn line_of(glass: Glass, i: usize) -> usize
    requires { i < glass.screen }
    ensures { result ≡ i / glass.stride }
{
    in_lines(glass, i) >> RECIPROCAL_BITS
}

// Its column: the stride times the part of a line before it.
#[tactic(auto, using(crate::proofs::Poking::column_found))]
fn column_of(glass: Glass, i: usize) -> usize
    requires { i < glass.screen }
    ensures { result ≡ i % glass.stride }
{
    (part_of(in_lines(glass, i)) * glass.stride) >> RECIPROCAL_BITS
}

// The eight pixels of screen byte i.
fn byte_rect(glass: Glass, i: usize) -> Rect
    requires { i < glass.screen }
    ensures { result ≡ byte_rect glass.stride i }
{
    let left = (8 * column_of(glass, i)) as u16;
    let top = line_of(glass, i) as u16;
    Rect {
        left,
        top,
        right: left + 8,
        bottom: top + 1,
    }
}

pub fn write_byte(rec: &mut [u8], memory: &mut [u8], address: u16, byte: u8)
    requires { Given rec.old memory.old }
    ensures { answered 0 [] (lent rec.new memory.new []) ≡ done (glass_of (length rec.old)) (write_byte address byte) (lent rec.old memory.old []) }
{
    let glass = glass_of(rec.len());
    if is_ignored(rec, glass, address) {
        return;
    }
    memory[address as usize] = byte;
    let graphics = load_head(rec).graphics;
    if !in_screen(glass, graphics, address) {
        return;
    }
    let q = byte_rect(glass, (address - graphics) as usize);
    update::mark(rec, owed_as_is(q));
}
