// `caption_flush`.
ghost use Rattle.std.specs.Prelude.{◌≡◌, [], length};
ghost use Rattle.model.specs.Glass.{glass_of};
ghost use Rattle.model.specs.Glyphs.{fonts};
ghost use Rattle.model.specs.Calls.{flush, lent, answered, outcome};

use caption::answer;

// The extra list is lent as `list`, its font as `extra`.
#[unsafe(no_mangle)]
pub extern "C" fn caption_flush<'a>(
    rec: &mut [u8],
    memory: &mut [u8],
    ascii8: &[u8],
    ascii16: &[u8],
    gb: &'a [u8],
    emoji: &'a [u8],
    list: &[u8],
    extra: &'a [u8],
) -> u32
    ensures { answered result [] (lent rec.new memory.new []) ≡ outcome (glass_of (length rec.old)) (flush (fonts ascii8.now ascii16.now gb.now emoji.now list.now extra.now)) (lent rec.old memory.old []) }
{
    answer::code(caption::flushes::caption_flush(
        rec, memory, ascii8, ascii16, gb, emoji, list, extra,
    ))
}
