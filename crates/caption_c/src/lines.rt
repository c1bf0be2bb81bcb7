// `caption_draw_line` and `caption_draw_box`.
ghost use Rattle.std.specs.Prelude.{◌≡◌, [], length};
ghost use Rattle.model.specs.Glass.{glass_of};
ghost use Rattle.model.specs.Shapes.{line, box};
ghost use Rattle.model.specs.Calls.{draw, lent, answered, outcome};

use caption::answer;

#[unsafe(no_mangle)]
pub extern "C" fn caption_draw_line(
    rec: &mut [u8],
    memory: &mut [u8],
    x1: u8,
    y1: u8,
    x2: u8,
    y2: u8,
    mode: u8,
) -> u32
    ensures { answered result [] (lent rec.new memory.new []) ≡ outcome (glass_of (length rec.old)) (draw (line x1 y1 x2 y2 mode)) (lent rec.old memory.old []) }
{
    answer::code(caption::lines::caption_draw_line(rec, memory, x1, y1, x2, y2, mode))
}

#[unsafe(no_mangle)]
pub extern "C" fn caption_draw_box(
    rec: &mut [u8],
    memory: &mut [u8],
    x1: u8,
    y1: u8,
    x2: u8,
    y2: u8,
    fill: u8,
    mode: u8,
) -> u32
    ensures { answered result [] (lent rec.new memory.new []) ≡ outcome (glass_of (length rec.old)) (draw (box x1 y1 x2 y2 fill mode)) (lent rec.old memory.old []) }
{
    answer::code(caption::lines::caption_draw_box(rec, memory, x1, y1, x2, y2, fill, mode))
}
