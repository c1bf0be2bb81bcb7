// `caption_write_byte`.
ghost use Rattle.std.specs.Prelude.{◌≡◌, [], length};
ghost use Rattle.model.specs.Glass.{glass_of};
ghost use Rattle.model.specs.Calls.{write_byte, lent, answered, outcome};

use caption::answer;

#[unsafe(no_mangle)]
pub extern "C" fn caption_write_byte(
    rec: &mut [u8],
    memory: &mut [u8],
    address: u16,
    byte: u8,
) -> u32
    ensures { answered result [] (lent rec.new memory.new []) ≡ outcome (glass_of (length rec.old)) (write_byte address byte) (lent rec.old memory.old []) }
{
    answer::code(caption::poke::caption_write_byte(rec, memory, address, byte))
}
