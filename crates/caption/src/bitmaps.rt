// `caption_paint_bitmap` and `caption_paint_bitmap_by_bytes`.
ghost use Rattle.std.specs.Prelude.{◌≡◌, [], length};
ghost use Rattle.model.specs.Glass.{glass_of};
ghost use Rattle.model.specs.Shapes.{bitmap};
ghost use Rattle.model.specs.Refusals.{code_of};
ghost use Rattle.model.specs.Calls.{draw, lent, answered, outcome};

use accepted::bitmaps;
use model::glass::MEMORY_BYTES;
use model::refusal::Refusal;
use record::entry;

pub fn caption_paint_bitmap(
    rec: &mut [u8],
    memory: &mut [u8],
    address: u16,
    x: i32,
    y: i32,
    width: u8,
    height: u8,
    mode: u8,
) -> Result<(), Refusal>
    ensures { answered (code_of result) [] (lent rec.new memory.new []) ≡ outcome (glass_of (length rec.old)) (draw (bitmap address x y width height mode)) (lent rec.old memory.old []) }
{
    entry::enter(rec, memory.len() == MEMORY_BYTES)?;
    if mode > 4 {
        return Err(Refusal::Value);
    }
    if !bitmaps::source_fits(memory.len(), address, width, height) {
        return Err(Refusal::Source);
    }
    bitmaps::paint_bitmap(rec, memory, address, x, y, width, height, mode);
    Ok(())
}

// The same outcome, a byte of the screen at a time.
pub fn caption_paint_bitmap_by_bytes(
    rec: &mut [u8],
    memory: &mut [u8],
    address: u16,
    x: i32,
    y: i32,
    width: u8,
    height: u8,
    mode: u8,
) -> Result<(), Refusal>
    ensures { answered (code_of result) [] (lent rec.new memory.new []) ≡ outcome (glass_of (length rec.old)) (draw (bitmap address x y width height mode)) (lent rec.old memory.old []) }
{
    entry::enter(rec, memory.len() == MEMORY_BYTES)?;
    if mode > 4 {
        return Err(Refusal::Value);
    }
    if !bitmaps::source_fits(memory.len(), address, width, height) {
        return Err(Refusal::Source);
    }
    bitmaps::paint_bitmap_by_bytes(rec, memory, address, x, y, width, height, mode);
    Ok(())
}
