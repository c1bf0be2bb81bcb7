// `caption_flush`.
ghost use Rattle.std.specs.Prelude.{◌≡◌, [], length};
ghost use Rattle.model.specs.Glass.{glass_of};
ghost use Rattle.model.specs.Glyphs.{fonts};
ghost use Rattle.model.specs.Refusals.{code_of};
ghost use Rattle.model.specs.Calls.{flush, lent, answered, outcome};

use accepted_text::flushes;
use flush::fonts::Fonts;
use model::glass::MEMORY_BYTES;
use model::refusal::Refusal;
use record::entry;

// The extra list is lent as `list`, its font as `extra`.
pub fn caption_flush(
    rec: &mut [u8],
    memory: &mut [u8],
    ascii8: &[u8],
    ascii16: &[u8],
    gb: &[u8],
    emoji: &[u8],
    list: &[u8],
    extra: &[u8],
) -> Result<(), Refusal>
    ensures { answered (code_of result) [] (lent rec.new memory.new []) ≡ outcome (glass_of (length rec.old)) (flush (fonts ascii8.now ascii16.now gb.now emoji.now list.now extra.now)) (lent rec.old memory.old []) }
{
    entry::enter(rec, (memory.len() == MEMORY_BYTES) & (list.len() % 6 == 0))?;
    let fonts = Fonts {
        ascii8,
        ascii16,
        gb,
        emoji,
        list,
        extra,
    };
    if !flushes::glyphs_fit(rec, memory, fonts) {
        return Err(Refusal::Glyph);
    }
    flushes::flush(rec, memory, fonts);
    Ok(())
}
