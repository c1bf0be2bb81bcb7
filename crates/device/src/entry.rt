// The entry of a device call: LENT, then STATE.
ghost use Rattle.device.specs.Entry.{DeviceEntered};

use crate::registers;
use model::Registers;
use model::glass::{REGISTER_BYTES, SMALL};
use model::refusal::Refusal;

// The registers of a device that passes. `panel`: the bytes of the lent panel.
#[tactic(auto, unfolding(model::specs::Refusals::refusal))]
pub fn enter(bytes: &[u8], panel: usize) -> Result<Registers, Refusal>
    ensures { DeviceEntered bytes.now panel result }
{
    if bytes.len() != REGISTER_BYTES || panel != SMALL.screen {
        return Err(Refusal::Lent);
    }
    let r = registers::load_registers(bytes);
    if !registers::registers_fit(r) {
        return Err(Refusal::State);
    }
    Ok(r)
}
