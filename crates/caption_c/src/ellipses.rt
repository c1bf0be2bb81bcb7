// `caption_draw_ellipse` and `caption_draw_circle`.
ghost use Rattle.std.specs.Prelude.{◌≡◌, [], length};
ghost use Rattle.model.specs.Glass.{glass_of};
ghost use Rattle.model.specs.Shapes.{circle, ellipse};
ghost use Rattle.model.specs.Calls.{draw, lent, answered, outcome};

use caption::answer;

// No ellipse that RADIUS lets pass is ENDLESS: there is no code for that test.
#[unsafe(no_mangle)]
pub extern "C" fn caption_draw_ellipse(
    rec: &mut [u8],
    memory: &mut [u8],
    x: u8,
    y: u8,
    rx: u8,
    ry: u8,
    fill: u8,
    mode: u8,
) -> u32
    ensures { answered result [] (lent rec.new memory.new []) ≡ outcome (glass_of (length rec.old)) (draw (ellipse x y rx ry fill mode)) (lent rec.old memory.old []) }
{
    answer::code(caption::ellipses::caption_draw_ellipse(rec, memory, x, y, rx, ry, fill, mode))
}

// The ellipse of one radius.
#[unsafe(no_mangle)]
pub extern "C" fn caption_draw_circle(
    rec: &mut [u8],
    memory: &mut [u8],
    x: u8,
    y: u8,
    r: u8,
    fill: u8,
    mode: u8,
) -> u32
    ensures { answered result [] (lent rec.new memory.new []) ≡ outcome (glass_of (length rec.old)) (draw (circle x y r fill mode)) (lent rec.old memory.old []) }
{
    answer::code(caption::ellipses::caption_draw_circle(rec, memory, x, y, r, fill, mode))
}
