// The glass controller run on the core: lines written by hand, and lines of the driver. A line of output is a call and its answer, then the registers, then bytes 0 and 1
// of line 5 and the last byte of the panel. The file stdout beside src/ was written by hand, from the request.
#![tactic(auto)]

use caption::{answer, controller, drive, lines, open};
use model::Sent;
use model::glass::{MEMORY_BYTES, RECORD_BYTES, REGISTER_BYTES, SCREEN_BYTES};
use model::refusal::Refusal;
use standard_output::StandardOutput;
use std::fmt;
use std::fmt::Write;

// The controller's registers, and the panel behind them.
#[derive(Clone, Copy)]
struct Device {
    registers: [u8; REGISTER_BYTES],
    panel: [u8; SCREEN_BYTES],
}

impl Device {
    fn write(&mut self, register: u8, value: u8) {
        let done = controller::caption_controller_write(
            &mut self.registers,
            &mut self.panel,
            register,
            value,
        );
        let code = answer::code(done);
        let _ = writeln!(StandardOutput, "write {register} {value}: {code}{self}");
    }

    fn read(&mut self, register: u8) {
        let read = controller::caption_controller_read(&mut self.registers, &self.panel, register);
        let v = answer::value(read);
        let _ = writeln!(
            StandardOutput,
            "read {register}: {} {}{self}",
            v.code, v.value
        );
    }
}

impl fmt::Display for Device {
    fn fmt<W: fmt::Write>(&self, f: &mut fmt::Formatter<W>) -> fmt::Result {
        let [command, line, first, count, data, status, enable, reset] = self.registers;
        write!(f, ", {command} {line} {first} {count}")?;
        write!(f, " {data} {status} {enable} {reset}")?;
        let [a, b, last] = [self.panel[100], self.panel[101], self.panel[1599]];
        write!(f, ", {a} {b} {last}")
    }
}

// Three bytes at the end of the last line, with the interrupt enabled; then writes and reads that are refused, one of them for 255 + 1; a reset while busy; a clear.
fn by_hand() {
    let mut device = Device {
        registers: [0; REGISTER_BYTES],
        panel: [255; SCREEN_BYTES],
    };
    device.write(6, 1);
    device.write(1, 79);
    device.write(2, 17);
    device.write(3, 3);
    device.write(0, 2);
    device.write(1, 5);
    device.write(4, 170);
    device.write(4, 187);
    device.read(5);
    device.write(4, 204);
    device.read(5);
    device.write(4, 221);
    device.write(2, 255);
    device.write(3, 1);
    device.write(0, 2);
    device.write(2, 0);
    device.write(0, 2);
    device.write(7, 9);
    device.write(5, 0);
    device.write(8, 0);
    device.read(8);
    device.write(0, 1);
    device.registers[7] = 1;
    device.write(7, 0);
}

// What the driver is lent: the core's bytes, the device, and the image of what the panel shows.
#[derive(Drop)]
struct Driver {
    rec: [u8; RECORD_BYTES],
    memory: [u8; MEMORY_BYTES],
    device: Device,
    image: [u8; SCREEN_BYTES],
}

impl Driver {
    // V2, no keys, every pixel set.
    fn draw_screen(&mut self) -> Result<(), Refusal> {
        open::caption_open(
            &mut self.rec,
            &mut self.memory,
            4096,
            8192,
            1,
            0,
            0,
            0,
            0,
            0,
            0,
            0,
            0,
            0,
        )?;
        lines::caption_draw_box(&mut self.rec, &mut self.memory, 0, 0, 159, 79, 1, 1)
    }

    // Pixels 3 to 12 of line 5.
    fn clear_pixels(&mut self) -> Result<(), Refusal> {
        lines::caption_draw_line(&mut self.rec, &mut self.memory, 3, 5, 12, 5, 0)
    }

    fn drive(&mut self, number: u8) -> Sent {
        answer::sent(drive::caption_drive_line(
            &mut self.rec,
            &self.memory,
            &mut self.device.registers,
            &mut self.device.panel,
            &mut self.image,
            number,
        ))
    }

    // The lines of five text rows, sixteen each.
    fn drive_screen(&mut self) {
        for _ in 0..80 {
            self.drive(0);
        }
    }

    fn print_drive(&mut self, number: u8) {
        let s = self.drive(number);
        let _ = writeln!(
            StandardOutput,
            "drive {number}: {} {} {} {} {}{}",
            s.code, s.sent, s.line, s.left, s.right, self.device
        );
    }

    // Bytes 0 and 1 of line 5.
    fn print_image(&self) {
        let _ = writeln!(
            StandardOutput,
            "image {} {}",
            self.image[100], self.image[101]
        );
    }
}

// A whole screen of set pixels is driven line by line; then pixels 3 to 12 of line 5 are cleared, and the driver sends two bytes; then it is idle.
fn driven() {
    let mut driver = Driver {
        rec: [0; RECORD_BYTES],
        memory: [0; MEMORY_BYTES],
        device: Device {
            registers: [0; REGISTER_BYTES],
            panel: [0; SCREEN_BYTES],
        },
        image: [0; SCREEN_BYTES],
    };
    let _ = driver.draw_screen();
    driver.drive_screen();
    driver.print_drive(0);
    let _ = driver.clear_pixels();
    driver.print_drive(0);
    driver.print_drive(0);
    driver.print_drive(4);
    driver.device.write(2, 19);
    driver.device.write(3, 1);
    driver.device.write(0, 2);
    driver.print_drive(0);
    driver.print_drive(4);
    driver.print_image();
}

fn main() {
    by_hand();
    driven();
}
