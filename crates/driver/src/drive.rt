// The accepted driver call: a send to the image, then its line through the device.
ghost use Rattle.std.specs.Prelude.{◌≡◌, ◌<◌, length};
ghost use Rattle.model.specs.Calls.{line_sent_numbers};
ghost use Rattle.model.specs.Controller.{register_bytes, registers_of, device, answer};
ghost use Rattle.model.specs.Refusals.{code_of, refusal};
ghost use Rattle.model.specs.Driver.{driven, driver_tests, drive_done};
ghost use Rattle.model.specs.Geometry.{base, screen_bytes};
ghost use Rattle.record.specs.Given.{Given};
ghost use Rattle.driver.specs.Line.{Idle};

use crate::line;
use accepted::sends;
use device::registers::{is_busy, registers_fit, store_registers};
use marks::rect;
use model::glass::SMALL;
use model::refusal::Refusal;
use model::{Registers, SentLine};
use record::glass::{canvas_of, glass_of};
use record::head::load_head;
use record::panels::panel_at;
use send::line::copy_line;
use send::pending;

// What is tested after the record.
pub fn test_device(r: Registers, k: usize) -> Result<(), Refusal>
    ensures { code_of result ≡ refusal (driver_tests base k r) }
{
    let glass = SMALL;
    if !registers_fit(r) {
        return Err(Refusal::State);
    }
    if k >= glass.panels {
        return Err(Refusal::Panel);
    }
    if is_busy(r) {
        return Err(Refusal::Register);
    }
    Ok(())
}

// To panel k, whose image is lent; r are the registers, which pass and are not busy.
pub fn drive(
    rec: &mut [u8],
    memory: &[u8],
    registers: &mut [u8],
    panel: &mut [u8],
    image: &mut [u8],
    r: Registers,
    k: usize,
) -> Option<SentLine>
    requires given { Given rec.old memory.now }
    requires image_len { (length image.old ≡ screen_bytes base) × (k < base.panels) }
    requires registers_len { (length registers.old ≡ register_bytes) × (r ≡ registers_of registers.old) }
    requires idle { Idle base r panel.old }
    ensures { answer 0 (line_sent_numbers result) (driven rec.new memory.now (device registers.new panel.new) image.new) ≡ drive_done base k (driven rec.old memory.now (device registers.old panel.old) image.old) }
{
    // a send, written out as `sends::send_line` is, so that each of the two has it inline
    let glass = glass_of(rec.len());
    let from = load_head(rec).graphics as usize;
    let q = pending::send_panel(rec, glass, k, panel_at(glass, k));
    let sent = sends::line_sent(q);
    if rect::is_empty(q) {
        return sent;
    }
    let to = from + glass.screen;
    copy_line(canvas_of(glass), &memory[from..to], image, q);
    store_registers(registers, line::write_line(r, panel, image, q));
    sent
}
