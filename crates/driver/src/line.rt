// A line written to the device by the device's own writes.
ghost use Rattle.std.specs.Prelude.{◌≡◌, length};
ghost use Rattle.model.specs.Geometry.{base, screen_bytes};
ghost use Rattle.device.specs.Registers.{LineIn};
ghost use Rattle.driver.specs.Line.{Idle, Begun, Started, DataWritten, OnGlass, LineWritten};

use device::write::write;
use model::glass::SMALL;
use model::{Rect, Register, Registers};

// Registers 1 to 3, then command 2.
fn start_line(r: Registers, panel: &mut [u8], line: u8, first: u8, count: u8) -> Registers
    requires idle { Idle base r panel.old }
    requires line_in { LineIn base line first count }
    ensures { Started base r panel.old line first count result panel.new }
{
    let a = write(r, panel, Register::Line, line);
    let b = write(a, panel, Register::First, first);
    let c = write(b, panel, Register::Count, count);
    write(c, panel, Register::Command, 2)
}

// A data write for each byte.
fn write_bytes(mut r: Registers, panel: &mut [u8], bytes: &[u8]) -> Registers
    requires { Begun base r panel.old (length bytes.now) }
    ensures { DataWritten base r panel.old bytes.now result panel.new }
{
    for b in bytes {
        r = write(r, panel, Register::Data, *b);
    }
    r
}

// The top line of a rectangle, by the bytes of the image that hold its pixels.
pub fn write_line(r: Registers, panel: &mut [u8], image: &[u8], q: Rect) -> Registers
    requires idle { Idle base r panel.old }
    requires on_glass { OnGlass base q.top q.left q.right }
    requires image_len { length image.now ≡ screen_bytes base }
    ensures { LineWritten base r panel.old image.now q result panel.new }
{
    let first = (q.left as usize) / 8;
    let count = ((q.right as usize) - 1) / 8 + 1 - first;
    let from = SMALL.stride * (q.top as usize) + first;
    let s = start_line(r, panel, q.top as u8, first as u8, count as u8);
    write_bytes(s, panel, &image[from..from + count])
}
