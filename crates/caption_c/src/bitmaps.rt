// `caption_paint_bitmap` and `caption_paint_bitmap_by_bytes`.
ghost use Rattle.std.specs.Prelude.{◌≡◌, [], length};
ghost use Rattle.model.specs.Glass.{glass_of};
ghost use Rattle.model.specs.Shapes.{bitmap};
ghost use Rattle.model.specs.Calls.{draw, lent, answered, outcome};

use caption::answer;

#[unsafe(no_mangle)]
pub extern "C" fn caption_paint_bitmap(
    rec: &mut [u8],
    memory: &mut [u8],
    address: u16,
    x: i32,
    y: i32,
    width: u8,
    height: u8,
    mode: u8,
) -> u32
    ensures { answered result [] (lent rec.new memory.new []) ≡ outcome (glass_of (length rec.old)) (draw (bitmap address x y width height mode)) (lent rec.old memory.old []) }
{
    answer::code(caption::bitmaps::caption_paint_bitmap(
        rec, memory, address, x, y, width, height, mode,
    ))
}

// The same outcome, a byte of the screen at a time.
#[unsafe(no_mangle)]
pub extern "C" fn caption_paint_bitmap_by_bytes(
    rec: &mut [u8],
    memory: &mut [u8],
    address: u16,
    x: i32,
    y: i32,
    width: u8,
    height: u8,
    mode: u8,
) -> u32
    ensures { answered result [] (lent rec.new memory.new []) ≡ outcome (glass_of (length rec.old)) (draw (bitmap address x y width height mode)) (lent rec.old memory.old []) }
{
    answer::code(caption::bitmaps::caption_paint_bitmap_by_bytes(
        rec, memory, address, x, y, width, height, mode,
    ))
}
