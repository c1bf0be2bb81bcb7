// `caption_blink_cursor` and `caption_clear_cursor`.
ghost use Rattle.std.specs.Prelude.{◌≡◌, [], length};
ghost use Rattle.model.specs.Glass.{glass_of};
ghost use Rattle.model.specs.Refusals.{code_of};
ghost use Rattle.model.specs.Calls.{blink_cursor, clear_cursor, lent, answered, outcome};

use accepted_text::cursor;
use model::glass::MEMORY_BYTES;
use model::refusal::Refusal;
use record::entry;

pub fn caption_blink_cursor(rec: &mut [u8], memory: &mut [u8]) -> Result<(), Refusal>
    ensures { answered (code_of result) [] (lent rec.new memory.new []) ≡ outcome (glass_of (length rec.old)) blink_cursor (lent rec.old memory.old []) }
{
    entry::enter(rec, memory.len() == MEMORY_BYTES)?;
    cursor::blink_cursor(rec, memory);
    Ok(())
}

pub fn caption_clear_cursor(rec: &mut [u8], memory: &mut [u8]) -> Result<(), Refusal>
    ensures { answered (code_of result) [] (lent rec.new memory.new []) ≡ outcome (glass_of (length rec.old)) clear_cursor (lent rec.old memory.old []) }
{
    entry::enter(rec, memory.len() == MEMORY_BYTES)?;
    cursor::clear_cursor(rec, memory);
    Ok(())
}
