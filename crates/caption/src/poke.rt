// `caption_write_byte`.
ghost use Rattle.std.specs.Prelude.{◌≡◌, [], length};
ghost use Rattle.model.specs.Glass.{glass_of};
ghost use Rattle.model.specs.Refusals.{code_of};
ghost use Rattle.model.specs.Calls.{write_byte, lent, answered, outcome};

use accepted::poke;
use model::glass::MEMORY_BYTES;
use model::refusal::Refusal;
use record::entry;

pub fn caption_write_byte(
    rec: &mut [u8],
    memory: &mut [u8],
    address: u16,
    byte: u8,
) -> Result<(), Refusal>
    ensures { answered (code_of result) [] (lent rec.new memory.new []) ≡ outcome (glass_of (length rec.old)) (write_byte address byte) (lent rec.old memory.old []) }
{
    entry::enter(rec, memory.len() == MEMORY_BYTES)?;
    poke::write_byte(rec, memory, address, byte);
    Ok(())
}
