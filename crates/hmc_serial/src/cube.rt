//! A request performed on a cube.

ghost use Rattle.std.specs.Prelude.{◌≡◌, ◌<◌, ◌≤◌, None, length, slice_index, slice_set};
ghost use Rattle.hmc_codes.specs.Text.{value_in};
ghost use Rattle.hmc_serial.specs.Actions.{action_of};
ghost use Rattle.hmc_serial.specs.Cube.{cube_state_of, outcome_of_parts};
ghost use Rattle.hmc_serial.specs.Perform.{carry_out, perform_on, unless_error};
ghost use Rattle.hmc_serial.specs.Tested.{bench_error, cube_error};

use crate::Action;
use crate::answers::{acted_answer, answer_unless_posted};
use crate::blocks::{act_at, read, work_at, write};
use crate::errors::error;
use hmc_codes::{Answer, Request};
use hmc_memory::Banks;
use hmc_registers::Registers;
use hmc_units::Workbench;

/// Performs a request on the memory and the registers of its cube. Only a unit command asks the
/// bench of logic units. Returns the answer.
pub fn perform<B: Workbench>(
    banks: &mut Banks,
    registers: &mut Registers,
    bench: &mut B,
    request: &Request,
) -> Answer
    ensures outcome { outcome_of_parts banks.new registers.new (B.slots bench.new) result
        ≡ perform_on (cube_state_of banks.old registers.old) (B.slots bench.old) request.now }
    ensures shape { banks.new.shape ≡ banks.old.shape }
{
    request.invariant();
    let Some(action) = Action::of(request.command) else {
        return Answer::Silent;
    };
    match error(action, &banks.shape(), request) {
        Some(errstat) => answer_unless_posted(request.command, Answer::Refused { errstat }),
        None => carry_out(action, banks, registers, bench, request),
    }
}

// Performs a request that has none of the errors 1 to 5.
fn carry_out<B: Workbench>(
    action: Action,
    banks: &mut Banks,
    registers: &mut Registers,
    bench: &mut B,
    request: &Request,
) -> Answer
    requires action { action_of request.now.command ≡ Some action }
    requires no_error { cube_error action banks.old.shape request.now ≡ None }
    ensures outcome { let cube = cube_state_of banks.old registers.old in
        outcome_of_parts banks.new registers.new (B.slots bench.new) result
        ≡ unless_error (bench_error action (B.slots bench.old) request.now)
        cube (B.slots bench.old) request.now.command
        (carry_out action cube (B.slots bench.old) request.now) }
    ensures shape { banks.new.shape ≡ banks.old.shape }
{
    request.invariant();
    let address = request.address;
    match action {
        Action::Read(size) => {
            let payload = read(banks, address, usize::from(size));
            Answer::Read {
                flag: false,
                payload,
            }
        }
        Action::Write => {
            write(banks, address, request.payload.as_slice());
            answer_unless_posted(request.command, Answer::Done { flag: false })
        }
        Action::ReadRegister => read_register(registers, address),
        Action::WriteRegister => write_register(registers, address, request.payload.as_slice()),
        Action::Act(op) => {
            let acted = act_at(op, banks, address, request.payload.as_slice());
            acted_answer(request.command, &acted)
        }
        Action::Work(code) => match work_at(bench, code, banks, request) {
            Some(acted) => acted_answer(request.command, &acted),
            None => answer_unless_posted(request.command, Answer::Refused { errstat: 6 }),
        },
    }
}

// The value of a register that exists.
fn read_register(registers: &Registers, address: u64) -> Answer
    requires { address < 16 }
    ensures { result ≡ Answer.Register (slice_index registers.now address) }
{
    registers.invariant();
    Answer::Register {
        value: registers.read(address).unwrap_or(0),
    }
}

// Writes the number in the first four bytes to a scratch register.
fn write_register(registers: &mut Registers, address: u64, payload: &[u8]) -> Answer
    requires there { address < 16 }
    requires written { 4 ≤ address }
    requires long { 4 ≤ length payload.now }
    ensures registers { registers.new ≡ slice_set registers.old address (value_in payload.now) }
    ensures answer { result ≡ Answer.Stored }
{
    let mut bytes = [0; 4];
    bytes.copy_from_slice(&payload[..4]);
    match registers.write(address, u32::from_le_bytes(bytes)) {
        Ok(()) => Answer::Stored,
        Err(_) => unreachable!(),
    }
}
