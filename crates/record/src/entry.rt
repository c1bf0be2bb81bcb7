// The entry of every call but open: LENT, then STATE.
ghost use Rattle.record.specs.Entry.{Entered};

use crate::{glass, state};
use model::refusal::Refusal;

// Whether a record passes. `others`: the other lent buffers have their lengths.
pub fn enter(rec: &[u8], others: bool) -> Result<(), Refusal>
    ensures { Entered others rec.now result }
{
    let glass = glass::glass_of(rec.len());
    let lent = (rec.len() == glass.bytes) & others;
    if !lent {
        return Err(Refusal::Lent);
    }
    if !state::is_valid(rec, glass) {
        return Err(Refusal::State);
    }
    Ok(())
}
