// `caption_controller_write` and `caption_controller_read`: the glass controller, with its registers and its panel lent.
ghost use Rattle.std.specs.Prelude.{◌≡◌, []};
ghost use Rattle.model.specs.Geometry.{base};
ghost use Rattle.model.specs.Calls.{value_numbers};
ghost use Rattle.model.specs.Controller.{device, answer, device_outcome};
ghost use Rattle.model.specs.Controller as controller;

use caption::answer;
use model::Value;

#[unsafe(no_mangle)]
pub extern "C" fn caption_controller_write(
    registers: &mut [u8],
    panel: &mut [u8],
    register: u8,
    value: u8,
) -> u32
    ensures { answer result [] (device registers.new panel.new) ≡ device_outcome base (controller.write register value) (device registers.old panel.old) }
{
    answer::code(caption::controller::caption_controller_write(registers, panel, register, value))
}

#[unsafe(no_mangle)]
pub extern "C" fn caption_controller_read(registers: &mut [u8], panel: &[u8], register: u8) -> Value
    ensures { answer result.code (value_numbers result) (device registers.new panel.now) ≡ device_outcome base (controller.read register) (device registers.old panel.now) }
{
    answer::value(caption::controller::caption_controller_read(registers, panel, register))
}
