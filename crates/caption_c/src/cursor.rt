// `caption_blink_cursor` and `caption_clear_cursor`.
ghost use Rattle.std.specs.Prelude.{◌≡◌, [], length};
ghost use Rattle.model.specs.Glass.{glass_of};
ghost use Rattle.model.specs.Calls.{blink_cursor, clear_cursor, lent, answered, outcome};

use caption::answer;

#[unsafe(no_mangle)]
pub extern "C" fn caption_blink_cursor(rec: &mut [u8], memory: &mut [u8]) -> u32
    ensures { answered result [] (lent rec.new memory.new []) ≡ outcome (glass_of (length rec.old)) blink_cursor (lent rec.old memory.old []) }
{
    answer::code(caption::cursor::caption_blink_cursor(rec, memory))
}

#[unsafe(no_mangle)]
pub extern "C" fn caption_clear_cursor(rec: &mut [u8], memory: &mut [u8]) -> u32
    ensures { answered result [] (lent rec.new memory.new []) ≡ outcome (glass_of (length rec.old)) clear_cursor (lent rec.old memory.old []) }
{
    answer::code(caption::cursor::caption_clear_cursor(rec, memory))
}
