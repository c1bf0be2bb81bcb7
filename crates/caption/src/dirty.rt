// `caption_take_dirty_area`.
ghost use Rattle.std.specs.Prelude.{◌≡◌, [], length};
ghost use Rattle.model.specs.Glass.{glass_of};
ghost use Rattle.model.specs.Refusals.{code_of};
ghost use Rattle.model.specs.Calls.{take_dirty_area, lent, answered, numbers_beside, rect_numbers, outcome};

use marks::rect;
use model::Rect;
use model::refusal::Refusal;
use record::entry;
use record::head::load_head;
use updates::head;

pub fn caption_take_dirty_area(rec: &mut [u8]) -> Result<Rect, Refusal>
    ensures { answered (code_of result) (numbers_beside 4 rect_numbers result) (lent rec.new [] []) ≡ outcome (glass_of (length rec.old)) take_dirty_area (lent rec.old [] []) }
{
    entry::enter(rec, true)?;
    let dirty = load_head(rec).dirty;
    head::set_dirty(rec, rect::empty());
    Ok(dirty)
}
