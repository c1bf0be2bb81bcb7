// A write of the host to one register.
ghost use Rattle.std.specs.Prelude.{◌≡◌, true, length, Some};
ghost use Rattle.model.specs.Geometry.{base, screen_bytes};
ghost use Rattle.model.specs.Controller.{takes_write, registers_after};
ghost use Rattle.model.specs.declared.Register.TheVariants.{Command, Data};
ghost use Rattle.device.specs.Writing.{Ready, Written};

use crate::registers;
use model::glass::SMALL;
use model::{Register, Registers};

// A command: 0, 1, or 2 where the line's fields fit.
#[tactic(auto, unfolding(model::specs::Controller::takes_write))]
fn takes_command(r: Registers, value: u8) -> bool
    ensures { result ≡ takes_write base r (Some Command) value }
{
    !registers::is_busy(r) && (value <= 1 || (value == 2 && registers::line_fits(r)))
}

// REGISTER: the device takes the write.
#[tactic(auto, unfolding(model::specs::Controller::takes_write))]
pub fn takes_write(r: Registers, register: Option<Register>, value: u8) -> bool
    ensures { result ≡ takes_write base r register value }
{
    let busy = registers::is_busy(r);
    match register {
        Some(Register::Command) => takes_command(r, value),
        Some(Register::Line | Register::First | Register::Count) => !busy,
        Some(Register::Data) => busy,
        Some(Register::Status) | None => false,
        Some(Register::Enable) => value <= 1,
        Some(Register::Reset) => true,
    }
}

// 1 clears the panel, 2 sets busy.
#[tactic(auto, unfolding(model::specs::Controller::registers_after, model::specs::Controller::panel_after))]
fn write_command(r: Registers, panel: &mut [u8], value: u8) -> Registers
    requires { length panel.old ≡ screen_bytes base }
    ensures { Written base r (Some Command) value panel.old result panel.new }
{
    if value == 1 {
        panel.fill(0);
    }
    let status = if value == 2 {
        registers::status_of(true, registers::has_interrupt(r))
    } else {
        r.status
    };
    Registers {
        command: value,
        status,
        ..r
    }
}

// The byte goes to the panel; the last one of a line ends it.
#[tactic(auto, unfolding(model::specs::Controller::takes_write, model::specs::Controller::registers_after, model::specs::Controller::panel_after))]
fn write_data(r: Registers, panel: &mut [u8], value: u8) -> Registers
    requires { Ready base r (Some Data) value panel.old }
    ensures { Written base r (Some Data) value panel.old result panel.new }
{
    panel[SMALL.stride * (r.line as usize) + (r.first as usize)] = value;
    // a field at a time: with a whole new value the driver takes a fifth longer for a byte
    let mut s = r;
    s.byte = value;
    s.first = r.first + 1;
    s.count = r.count - 1;
    if s.count == 0 {
        s.status = registers::status_of(false, registers::has_interrupt(r) || r.enable == 1);
    }
    s
}

// A write that the device takes.
#[tactic(auto, unfolding(model::specs::Controller::registers_after, model::specs::Controller::panel_after))]
pub fn write(r: Registers, panel: &mut [u8], register: Register, value: u8) -> Registers
    requires { Ready base r (Some register) value panel.old }
    ensures { Written base r (Some register) value panel.old result panel.new }
{
    match register {
        Register::Command => write_command(r, panel, value),
        Register::Line => Registers { line: value, ..r },
        Register::First => Registers { first: value, ..r },
        Register::Count => Registers { count: value, ..r },
        Register::Data => write_data(r, panel, value),
        Register::Status => r,
        Register::Enable => Registers { enable: value, ..r },
        Register::Reset => Registers::default(),
    }
}
