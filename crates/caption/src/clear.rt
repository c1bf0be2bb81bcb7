// `caption_cls` and `caption_set_screen_mode`.
ghost use Rattle.std.specs.Prelude.{◌≡◌, [], length};
ghost use Rattle.model.specs.Glass.{glass_of};
ghost use Rattle.model.specs.Refusals.{code_of};
ghost use Rattle.model.specs.Calls.{cls, set_screen_mode, lent, answered, outcome};

use accepted_text::clear;
use model::glass::MEMORY_BYTES;
use model::refusal::Refusal;
use record::entry;

pub fn caption_set_screen_mode(rec: &mut [u8], memory: &mut [u8], mode: u8) -> Result<(), Refusal>
    ensures { answered (code_of result) [] (lent rec.new memory.new []) ≡ outcome (glass_of (length rec.old)) (set_screen_mode mode) (lent rec.old memory.old []) }
{
    entry::enter(rec, memory.len() == MEMORY_BYTES)?;
    if mode > 1 {
        return Err(Refusal::Value);
    }
    clear::set_screen_mode(rec, memory, mode);
    Ok(())
}

pub fn caption_cls(rec: &mut [u8], memory: &mut [u8]) -> Result<(), Refusal>
    ensures { answered (code_of result) [] (lent rec.new memory.new []) ≡ outcome (glass_of (length rec.old)) cls (lent rec.old memory.old []) }
{
    entry::enter(rec, memory.len() == MEMORY_BYTES)?;
    clear::cls(rec, memory);
    Ok(())
}
