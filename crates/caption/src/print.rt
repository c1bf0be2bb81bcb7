// `caption_print` and `caption_newline`.
ghost use Rattle.std.specs.Prelude.{◌≡◌, [], length};
ghost use Rattle.model.specs.Glass.{glass_of};
ghost use Rattle.model.specs.Refusals.{code_of};
ghost use Rattle.model.specs.Calls.{print, newline, lent, answered, outcome};

use accepted_text::print;
use model::glass::MEMORY_BYTES;
use model::refusal::Refusal;
use record::entry;

pub fn caption_newline(rec: &mut [u8], memory: &mut [u8]) -> Result<(), Refusal>
    ensures { answered (code_of result) [] (lent rec.new memory.new []) ≡ outcome (glass_of (length rec.old)) newline (lent rec.old memory.old []) }
{
    entry::enter(rec, memory.len() == MEMORY_BYTES)?;
    print::newline(rec, memory);
    Ok(())
}

pub fn caption_print(rec: &mut [u8], memory: &mut [u8], bytes: &[u8]) -> Result<(), Refusal>
    ensures { answered (code_of result) [] (lent rec.new memory.new []) ≡ outcome (glass_of (length rec.old)) (print bytes.now) (lent rec.old memory.old []) }
{
    entry::enter(rec, memory.len() == MEMORY_BYTES)?;
    print::print(rec, memory, bytes);
    Ok(())
}
