// `caption_take_dirty_area`.
ghost use Rattle.std.specs.Prelude.{◌≡◌, [], length};
ghost use Rattle.model.specs.Glass.{glass_of};
ghost use Rattle.model.specs.Calls.{take_dirty_area, lent, answered, area_numbers, outcome};

use caption::answer;
use model::Area;

#[unsafe(no_mangle)]
pub extern "C" fn caption_take_dirty_area(rec: &mut [u8]) -> Area
    ensures { answered result.code (area_numbers result) (lent rec.new [] []) ≡ outcome (glass_of (length rec.old)) take_dirty_area (lent rec.old [] []) }
{
    answer::area(caption::dirty::caption_take_dirty_area(rec))
}
