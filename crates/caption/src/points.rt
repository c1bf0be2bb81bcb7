// `caption_draw_point` and `caption_check_point`.
ghost use Rattle.std.specs.Prelude.{◌≡◌, [], ◌∷◌, length};
ghost use Rattle.model.specs.Glass.{glass_of};
ghost use Rattle.model.specs.Shapes.{point};
ghost use Rattle.model.specs.Refusals.{code_of};
ghost use Rattle.model.specs.Calls.{draw, check_point, lent, answered, numbers_beside, flag, outcome};

use accepted::points;
use model::glass::MEMORY_BYTES;
use model::refusal::Refusal;
use record::entry;

pub fn caption_draw_point(
    rec: &mut [u8],
    memory: &mut [u8],
    x: u8,
    y: u8,
    mode: u8,
) -> Result<(), Refusal>
    ensures { answered (code_of result) [] (lent rec.new memory.new []) ≡ outcome (glass_of (length rec.old)) (draw (point x y mode)) (lent rec.old memory.old []) }
{
    entry::enter(rec, memory.len() == MEMORY_BYTES)?;
    if mode > 3 {
        return Err(Refusal::Value);
    }
    points::draw_point(rec, memory, x, y, mode);
    Ok(())
}

pub fn caption_check_point(rec: &[u8], memory: &[u8], x: i32, y: i32) -> Result<bool, Refusal>
    ensures { answered (code_of result) (numbers_beside 1 (λ set. flag set ∷ []) result) (lent rec.now memory.now []) ≡ outcome (glass_of (length rec.now)) (check_point x y) (lent rec.now memory.now []) }
{
    entry::enter(rec, memory.len() == MEMORY_BYTES)?;
    Ok(points::check_point(rec, memory, x, y))
}
