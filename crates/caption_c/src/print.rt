// `caption_print` and `caption_newline`.
ghost use Rattle.std.specs.Prelude.{◌≡◌, [], length};
ghost use Rattle.model.specs.Glass.{glass_of};
ghost use Rattle.model.specs.Calls.{print, newline, lent, answered, outcome};

use caption::answer;

#[unsafe(no_mangle)]
pub extern "C" fn caption_newline(rec: &mut [u8], memory: &mut [u8]) -> u32
    ensures { answered result [] (lent rec.new memory.new []) ≡ outcome (glass_of (length rec.old)) newline (lent rec.old memory.old []) }
{
    answer::code(caption::print::caption_newline(rec, memory))
}

#[unsafe(no_mangle)]
pub extern "C" fn caption_print(rec: &mut [u8], memory: &mut [u8], bytes: &[u8]) -> u32
    ensures { answered result [] (lent rec.new memory.new []) ≡ outcome (glass_of (length rec.old)) (print bytes.now) (lent rec.old memory.old []) }
{
    answer::code(caption::print::caption_print(rec, memory, bytes))
}
