// `caption_open` and `caption_reset`.
ghost use Rattle.std.specs.Prelude.{◌≡◌, [], ◌∷◌, length};
ghost use Rattle.model.specs.Glass.{glass_of};
ghost use Rattle.model.specs.Refusals.{code_of};
ghost use Rattle.model.specs.Calls.{opening, reset, lent, answered, outcome};

use accepted::open;
use model::glass::MEMORY_BYTES;
use model::refusal::Refusal;
use record::glass::glass_of;
use record::{entry, state};

pub fn caption_open(
    rec: &mut [u8],
    memory: &mut [u8],
    graphics: u16,
    text: u16,
    version: u8,
    keys0: u32,
    keys1: u32,
    keys2: u32,
    keys3: u32,
    keys4: u32,
    keys5: u32,
    keys6: u32,
    keys7: u32,
    edge: u8,
) -> Result<(), Refusal>
    ensures { answered (code_of result) [] (lent rec.new memory.new []) ≡ outcome (glass_of (length rec.old)) (opening graphics text version (keys0 ∷ keys1 ∷ keys2 ∷ keys3 ∷ keys4 ∷ keys5 ∷ keys6 ∷ keys7 ∷ []) edge) (lent rec.old memory.old []) }
{
    let glass = glass_of(rec.len());
    let lent = (rec.len() == glass.bytes) & (memory.len() == MEMORY_BYTES);
    if !lent {
        return Err(Refusal::Lent);
    }
    if !state::windows_fit(glass, graphics, text) {
        return Err(Refusal::Window);
    }
    let listed = (version <= 1) & state::edge_fits(edge);
    if !listed {
        return Err(Refusal::Value);
    }
    let keys = [keys0, keys1, keys2, keys3, keys4, keys5, keys6, keys7];
    open::open(rec, memory, graphics, text, version, keys, edge);
    Ok(())
}

pub fn caption_reset(rec: &mut [u8], memory: &mut [u8]) -> Result<(), Refusal>
    ensures { answered (code_of result) [] (lent rec.new memory.new []) ≡ outcome (glass_of (length rec.old)) reset (lent rec.old memory.old []) }
{
    entry::enter(rec, memory.len() == MEMORY_BYTES)?;
    open::reset(rec, memory);
    Ok(())
}
