// `caption_draw_ellipse` and `caption_draw_circle`.
ghost use Rattle.std.specs.Prelude.{◌≡◌, [], length};
ghost use Rattle.model.specs.Glass.{glass_of};
ghost use Rattle.model.specs.Shapes.{circle, ellipse};
ghost use Rattle.model.specs.Refusals.{code_of};
ghost use Rattle.model.specs.Calls.{draw, lent, answered, outcome};

use accepted::ellipses;
use accepted::lines::fill_fits;
use model::glass::MEMORY_BYTES;
use model::refusal::Refusal;
use record::entry;

// No ellipse that RADIUS lets pass is ENDLESS: there is no code for that test.
pub fn caption_draw_ellipse(
    rec: &mut [u8],
    memory: &mut [u8],
    x: u8,
    y: u8,
    rx: u8,
    ry: u8,
    fill: u8,
    mode: u8,
) -> Result<(), Refusal>
    ensures { answered (code_of result) [] (lent rec.new memory.new []) ≡ outcome (glass_of (length rec.old)) (draw (ellipse x y rx ry fill mode)) (lent rec.old memory.old []) }
{
    entry::enter(rec, memory.len() == MEMORY_BYTES)?;
    if !fill_fits(fill, mode) {
        return Err(Refusal::Value);
    }
    if !ellipses::radii_fit(rx, ry, fill, mode) {
        return Err(Refusal::Radius);
    }
    ellipses::draw_ellipse(rec, memory, x, y, rx, ry, fill, mode);
    Ok(())
}

// The ellipse of one radius.
pub fn caption_draw_circle(
    rec: &mut [u8],
    memory: &mut [u8],
    x: u8,
    y: u8,
    r: u8,
    fill: u8,
    mode: u8,
) -> Result<(), Refusal>
    ensures { answered (code_of result) [] (lent rec.new memory.new []) ≡ outcome (glass_of (length rec.old)) (draw (circle x y r fill mode)) (lent rec.old memory.old []) }
{
    caption_draw_ellipse(rec, memory, x, y, r, r, fill, mode)
}
