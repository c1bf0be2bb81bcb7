// `caption_controller_write` and `caption_controller_read`: the glass controller, with its registers and its panel lent.
ghost use Rattle.std.specs.Prelude.{◌≡◌, [], ◌∷◌};
ghost use Rattle.model.specs.Geometry.{base};
ghost use Rattle.model.specs.Refusals.{code_of};
ghost use Rattle.model.specs.Calls.{numbers_beside};
ghost use Rattle.model.specs.Controller.{device, answer, device_outcome};
ghost use Rattle.model.specs.Controller as controller;

use device::entry;
use device::read::read_registers;
use device::registers::{register_of, store_registers};
use device::write::{takes_write, write};
use model::glass::REGISTER_BYTES;
use model::refusal::Refusal;

pub fn caption_controller_write(
    registers: &mut [u8],
    panel: &mut [u8],
    register: u8,
    value: u8,
) -> Result<(), Refusal>
    ensures { answer (code_of result) [] (device registers.new panel.new) ≡ device_outcome base (controller.write register value) (device registers.old panel.old) }
{
    let r = entry::enter(registers, panel.len())?;
    let Some(n) = register_of(register) else {
        return Err(Refusal::Register);
    };
    if !takes_write(r, Some(n), value) {
        return Err(Refusal::Register);
    }
    store_registers(registers, write(r, panel, n, value));
    Ok(())
}

pub fn caption_controller_read(
    registers: &mut [u8],
    panel: &[u8],
    register: u8,
) -> Result<u8, Refusal>
    ensures { answer (code_of result) (numbers_beside 1 (λ v. v ∷ []) result) (device registers.new panel.now) ≡ device_outcome base (controller.read register) (device registers.old panel.now) }
{
    let r = entry::enter(registers, panel.len())?;
    let i = register as usize;
    if i >= REGISTER_BYTES {
        return Err(Refusal::Register);
    }
    let value = registers[i];
    store_registers(registers, read_registers(r, register));
    Ok(value)
}
