// `caption_open` and `caption_reset`.
ghost use Rattle.std.specs.Prelude.{◌≡◌, [], ◌∷◌, length};
ghost use Rattle.model.specs.Glass.{glass_of};
ghost use Rattle.model.specs.Calls.{opening, reset, lent, answered, outcome};

use caption::answer;

#[unsafe(no_mangle)]
pub extern "C" fn caption_open(
    rec: &mut [u8],
    memory: &mut [u8],
    graphics: u16,
    text: u16,
    version: u8,
    keys0: u32,
    keys1: u32,
    keys2: u32,
    keys3: u32,
    keys4: u32,
    keys5: u32,
    keys6: u32,
    keys7: u32,
    edge: u8,
) -> u32
    ensures { answered result [] (lent rec.new memory.new []) ≡ outcome (glass_of (length rec.old)) (opening graphics text version (keys0 ∷ keys1 ∷ keys2 ∷ keys3 ∷ keys4 ∷ keys5 ∷ keys6 ∷ keys7 ∷ []) edge) (lent rec.old memory.old []) }
{
    answer::code(caption::open::caption_open(
        rec, memory, graphics, text, version, keys0, keys1, keys2, keys3, keys4, keys5, keys6,
        keys7, edge,
    ))
}

#[unsafe(no_mangle)]
pub extern "C" fn caption_reset(rec: &mut [u8], memory: &mut [u8]) -> u32
    ensures { answered result [] (lent rec.new memory.new []) ≡ outcome (glass_of (length rec.old)) reset (lent rec.old memory.old []) }
{
    answer::code(caption::open::caption_reset(rec, memory))
}
