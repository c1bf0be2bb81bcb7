// `caption_drive_line`: a send through the glass controller.
ghost use Rattle.std.specs.Prelude.{◌≡◌, length};
ghost use Rattle.model.specs.Glass.{glass_of};
ghost use Rattle.model.specs.Calls.{sent_numbers};
ghost use Rattle.model.specs.Controller.{device, answer};
ghost use Rattle.model.specs.Driver.{driven, drive_outcome};

use caption::answer;
use model::Sent;

// To the panel of that number: `panel` is the device's, and `image` the driver's own copy of it.
#[unsafe(no_mangle)]
pub extern "C" fn caption_drive_line(
    rec: &mut [u8],
    memory: &[u8],
    registers: &mut [u8],
    panel: &mut [u8],
    image: &mut [u8],
    number: u8,
) -> Sent
    ensures { answer result.code (sent_numbers result) (driven rec.new memory.now (device registers.new panel.new) image.new) ≡ drive_outcome (glass_of (length rec.old)) number (driven rec.old memory.now (device registers.old panel.old) image.old) }
{
    answer::sent(caption::drive::caption_drive_line(rec, memory, registers, panel, image, number))
}
