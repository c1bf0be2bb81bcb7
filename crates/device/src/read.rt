// A read of one register.
ghost use Rattle.std.specs.Prelude.{◌≡◌};
ghost use Rattle.model.specs.Controller.{registers_read};

use crate::registers;
use model::Registers;

// What a read of register n leaves: of status, that the interrupt bit is cleared.
#[tactic(auto, unfolding(model::specs::Controller::registers_read))]
pub fn read_registers(r: Registers, n: u8) -> Registers
    ensures { result ≡ registers_read r n }
{
    if n != 5 {
        return r;
    }
    Registers {
        status: registers::status_of(registers::is_busy(r), false),
        ..r
    }
}
