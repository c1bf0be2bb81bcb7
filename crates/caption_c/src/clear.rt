// `caption_cls` and `caption_set_screen_mode`.
ghost use Rattle.std.specs.Prelude.{◌≡◌, [], length};
ghost use Rattle.model.specs.Glass.{glass_of};
ghost use Rattle.model.specs.Calls.{cls, set_screen_mode, lent, answered, outcome};

use caption::answer;

#[unsafe(no_mangle)]
pub extern "C" fn caption_set_screen_mode(rec: &mut [u8], memory: &mut [u8], mode: u8) -> u32
    ensures { answered result [] (lent rec.new memory.new []) ≡ outcome (glass_of (length rec.old)) (set_screen_mode mode) (lent rec.old memory.old []) }
{
    answer::code(caption::clear::caption_set_screen_mode(rec, memory, mode))
}

#[unsafe(no_mangle)]
pub extern "C" fn caption_cls(rec: &mut [u8], memory: &mut [u8]) -> u32
    ensures { answered result [] (lent rec.new memory.new []) ≡ outcome (glass_of (length rec.old)) cls (lent rec.old memory.old []) }
{
    answer::code(caption::clear::caption_cls(rec, memory))
}
