// `caption_draw_point` and `caption_check_point`.
ghost use Rattle.std.specs.Prelude.{◌≡◌, [], length};
ghost use Rattle.model.specs.Glass.{glass_of};
ghost use Rattle.model.specs.Shapes.{point};
ghost use Rattle.model.specs.Calls.{draw, check_point, lent, answered, value_numbers, outcome};

use caption::answer;
use model::Value;

#[unsafe(no_mangle)]
pub extern "C" fn caption_draw_point(
    rec: &mut [u8],
    memory: &mut [u8],
    x: u8,
    y: u8,
    mode: u8,
) -> u32
    ensures { answered result [] (lent rec.new memory.new []) ≡ outcome (glass_of (length rec.old)) (draw (point x y mode)) (lent rec.old memory.old []) }
{
    answer::code(caption::points::caption_draw_point(rec, memory, x, y, mode))
}

#[unsafe(no_mangle)]
pub extern "C" fn caption_check_point(rec: &[u8], memory: &[u8], x: i32, y: i32) -> Value
    ensures { answered result.code (value_numbers result) (lent rec.now memory.now []) ≡ outcome (glass_of (length rec.now)) (check_point x y) (lent rec.now memory.now []) }
{
    answer::value(caption::points::caption_check_point(rec, memory, x, y).map(u8::from))
}
