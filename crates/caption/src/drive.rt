// `caption_drive_line`: a send through the glass controller.
ghost use Rattle.std.specs.Prelude.{◌≡◌, length};
ghost use Rattle.model.specs.Glass.{glass_of};
ghost use Rattle.model.specs.Refusals.{code_of};
ghost use Rattle.model.specs.Calls.{numbers_beside, line_sent_numbers};
ghost use Rattle.model.specs.Controller.{device, answer};
ghost use Rattle.model.specs.Driver.{driven, drive_outcome};

use device::registers::load_registers;
use driver::drive;
use model::SentLine;
use model::glass::{MEMORY_BYTES, REGISTER_BYTES};
use model::refusal::Refusal;
use record::entry;
use record::glass::glass_of;

// To the panel of that number: `panel` is the device's, and `image` the driver's own copy of it.
pub fn caption_drive_line(
    rec: &mut [u8],
    memory: &[u8],
    registers: &mut [u8],
    panel: &mut [u8],
    image: &mut [u8],
    number: u8,
) -> Result<Option<SentLine>, Refusal>
    ensures { answer (code_of result) (numbers_beside 4 line_sent_numbers result) (driven rec.new memory.now (device registers.new panel.new) image.new) ≡ drive_outcome (glass_of (length rec.old)) number (driven rec.old memory.now (device registers.old panel.old) image.old) }
{
    let glass = glass_of(rec.len());
    let device = (registers.len() == REGISTER_BYTES) & (panel.len() == glass.screen);
    entry::enter(
        rec,
        (memory.len() == MEMORY_BYTES) & (device & (image.len() == glass.screen)),
    )?;
    let r = load_registers(registers);
    let k = number as usize;
    drive::test_device(r, k)?;
    Ok(drive::drive(rec, memory, registers, panel, image, r, k))
}
