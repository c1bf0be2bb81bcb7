// The registers by value, and what STATE asks of them.
ghost use Rattle.std.specs.Prelude.{◌≡◌, length};
ghost use Rattle.model.specs.Geometry.{base};
ghost use Rattle.model.specs.Controller.{register_bytes, register_of, registers, registers_of, bytes_of_registers, busy, interrupt, status_of, line_fits, registers_fit};

use model::glass::SMALL;
use model::{Register, Registers};

pub fn load_registers(bytes: &[u8]) -> Registers
    requires { length bytes.now ≡ register_bytes }
    ensures { result ≡ registers_of bytes.now }
{
    Registers {
        command: bytes[0],
        line: bytes[1],
        first: bytes[2],
        count: bytes[3],
        byte: bytes[4],
        status: bytes[5],
        enable: bytes[6],
        reset: bytes[7],
    }
}

pub fn store_registers(bytes: &mut [u8], r: Registers)
    requires { length bytes.old ≡ register_bytes }
    ensures { bytes.new ≡ bytes_of_registers r }
{
    bytes[0] = r.command;
    bytes[1] = r.line;
    bytes[2] = r.first;
    bytes[3] = r.count;
    bytes[4] = r.byte;
    bytes[5] = r.status;
    bytes[6] = r.enable;
    bytes[7] = r.reset;
}

// A number above 7 names none.
pub fn register_of(n: u8) -> Option<Register>
    ensures { result ≡ register_of n }
{
    match n {
        0 => Some(Register::Command),
        1 => Some(Register::Line),
        2 => Some(Register::First),
        3 => Some(Register::Count),
        4 => Some(Register::Data),
        5 => Some(Register::Status),
        6 => Some(Register::Enable),
        7 => Some(Register::Reset),
        _ => None,
    }
}

// ---- status: bit 0 is busy, bit 1 the interrupt

pub fn is_busy(r: Registers) -> bool
    ensures { result ≡ busy r }
{
    r.status % 2 == 1
}

pub fn has_interrupt(r: Registers) -> bool
    ensures { result ≡ interrupt r }
{
    r.status / 2 % 2 == 1
}

pub fn status_of(busy: bool, interrupt: bool) -> u8
    ensures { result ≡ status_of busy interrupt }
{
    (busy as u8) + 2 * (interrupt as u8)
}

// ---- STATE

// What command 2 needs; first byte plus count is an exact sum.
#[tactic(auto, unfolding(model::specs::Controller::line_fits))]
pub fn line_fits(r: Registers) -> bool
    ensures { result ≡ line_fits base r }
{
    (r.line as u16) < SMALL.height
        && (r.first as usize) + (r.count as usize) <= SMALL.stride
        && r.count >= 1
}

#[tactic(auto, unfolding(model::specs::Controller::registers_fit))]
pub fn registers_fit(r: Registers) -> bool
    ensures { result ≡ registers_fit base r }
{
    r.command <= 2
        && r.status <= 3
        && r.enable <= 1
        && r.reset == 0
        && (!is_busy(r) || line_fits(r))
}
