//! The units that execute requests.

ghost use Rattle.std.specs.Prelude.{◌≡◌};
ghost use Rattle.hmc_serial.specs.Unit.{is_for_registers, unit_of};

use hmc_codes::{Command, Request, Shape, Unit};

/// Whether a command reads or writes a register. Registers execute such a request, and a bank any
/// other.
pub fn is_for_registers(command: Command) -> bool
    ensures { result ≡ is_for_registers command }
{
    matches!(command, Command::Mdrd | Command::Mdwr)
}

/// The unit that executes a request in a cube of this shape: the registers, or the bank that the
/// address names.
#[tactic(auto, unfolding(crate::specs::Unit::unit_of))]
pub fn unit_of(shape: Shape, request: &Request) -> Unit
    ensures { result ≡ unit_of shape request.now }
{
    let cube = request.cube;
    if is_for_registers(request.command) {
        return Unit::Registers { cube };
    }
    let spot = shape.spot(request.address);
    Unit::Bank {
        cube,
        vault: spot.vault,
        bank: spot.bank,
    }
}
