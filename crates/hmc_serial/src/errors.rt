//! The errors of requests.

ghost use Rattle.std.specs.Prelude.{◌≡◌, ◌<◌, ◌^◌};
ghost use Rattle.hmc_serial.specs.Errors.{is_misaligned, memory_error, register_error, register_write_error};
ghost use Rattle.hmc_serial.specs.Tested.{cube_error};

use crate::Action;
use hmc_codes::{Request, Shape};
use hmc_registers::{FIRST_SCRATCH, REGISTERS};

fn is_misaligned(halves: bool, address: u64) -> bool
    ensures { result ≡ is_misaligned halves address }
{
    address % 8 != 0 || (!halves && address / 8 % 2 != 0)
}

// Errors 1 to 3.
#[tactic(auto, unfolding(crate::specs::Errors::memory_error))]
fn memory_error(shape: &Shape, size: u64, halves: bool, address: u64) -> Option<u8>
    requires { size < 2 ^ 32 }
    ensures { result ≡ memory_error shape.now size halves address }
{
    let spot = shape.spot(address);
    if is_misaligned(halves, address) {
        Some(1)
    } else if u64::from(spot.offset) + size > u64::from(shape.block) {
        Some(2)
    } else if spot.row >= u64::from(shape.rows) {
        Some(3)
    } else {
        None
    }
}

// Error 4.
#[tactic(auto, unfolding(crate::specs::Errors::register_error))]
fn register_error(address: u64) -> Option<u8>
    ensures { result ≡ register_error address }
{
    if address >= REGISTERS { Some(4) } else { None }
}

// Errors 4 and 5.
#[tactic(auto, unfolding(crate::specs::Errors::register_write_error))]
fn register_write_error(address: u64) -> Option<u8>
    ensures { result ≡ register_write_error address }
{
    if address >= REGISTERS {
        Some(4)
    } else if address < FIRST_SCRATCH {
        Some(5)
    } else {
        None
    }
}

/// The number of a request's error, 1 to 5, or `None` if it has none of these. Whether a unit
/// command has error 6 is known once the bench was asked.
pub fn error(action: Action, shape: &Shape, request: &Request) -> Option<u8>
    ensures { result ≡ cube_error action shape.now request.now }
{
    let address = request.address;
    match action {
        Action::Read(size) => memory_error(shape, u64::from(size), false, address),
        Action::Write => {
            let payload = request.payload.as_slice();
            memory_error(shape, payload.len() as u64, false, address)
        }
        Action::ReadRegister => register_error(address),
        Action::WriteRegister => register_write_error(address),
        Action::Act(op) => {
            let halves = op.by_halves();
            memory_error(shape, if halves { 8 } else { 16 }, halves, address)
        }
        Action::Work(_) => memory_error(shape, 16, false, address),
    }
}
