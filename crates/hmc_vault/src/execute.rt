//! The execution of requests.

ghost use Rattle.std.specs.Prelude.{◌≡◌, ◌↔◌, [], ◌++◌, false, slice_get};
ghost use Rattle.std.specs.Option.{ForSome};
ghost use Rattle.hmc_codes.specs.Commands.{is_posted};
ghost use Rattle.hmc_codes.specs.Answer.{CanReply};
ghost use Rattle.hmc_serial.specs.Cube.{cube_state_of, outcome_of_parts};
ghost use Rattle.hmc_serial.specs.Perform.{perform_on};
ghost use Rattle.hmc_tokens.specs.Queue.{packets_of, size_of};
ghost use Rattle.hmc_vault.specs.Packets.{CarriesRequest};
ghost use Rattle.hmc_vault.specs.Execute.{must_wait, command_waits, front_waits, execute_says, replies_to, waiting_after, answers_after, cube_after, slots_after};

use crate::{Execution, ExecutionKind};
use hmc_codes::{Answer, Command, Request};
use hmc_memory::Banks;
use hmc_packet::{Packet, reply, request_of};
use hmc_registers::Registers;
use hmc_serial::perform;
use hmc_tokens::{Intake, Queue};
use hmc_units::Workbench;

/// What an execution did.
#[derive(Clone, Copy)]
pub enum Executed {
    /// Nothing: the queue is empty.
    Empty,
    /// Nothing: the front has an answer, and the answers queue is full.
    Full,
    /// The front's request was performed. The answer to a posted one is `Silent`.
    Ran {
        /// The host link that the request came from, below 8.
        host: u8,
        /// The request's tag, below 2,048.
        tag: u16,
        request: Request,
        answer: Answer,
    },
}

/// Performs the request at the front of a queue, and writes what was done into a place for it. Only
/// a unit command asks the bench of logic units. Unless the request is posted, the reply enters an
/// answers queue.
#[inline(always)]
pub fn execute_front_in<B: Workbench>(
    waiting: &mut Queue,
    answers: &mut Queue,
    banks: &mut Banks,
    registers: &mut Registers,
    bench: &mut B,
    execution: &mut Execution,
)
    requires { ForSome (slice_get (packets_of waiting.old) 0) CarriesRequest }
    ensures answer { execution.new ≡ execute_says (packets_of waiting.old) (packets_of answers.old)
        (size_of answers.old) (cube_state_of banks.old registers.old) (B.slots bench.old) }
    ensures empty { (execution.new ≡ Executed.Empty) ↔ (packets_of waiting.old ≡ []) }
    ensures cube { cube_state_of banks.new registers.new
        ≡ cube_after execution.new (cube_state_of banks.old registers.old) (B.slots bench.old) }
    ensures slots { B.slots bench.new
        ≡ slots_after execution.new (cube_state_of banks.old registers.old) (B.slots bench.old) }
    ensures shape { banks.new.shape ≡ banks.old.shape }
    ensures waiting { packets_of waiting.new
        ≡ waiting_after execution.new (packets_of waiting.old) }
    ensures answers { packets_of answers.new
        ≡ answers_after execution.new (packets_of answers.old) }

    // The sizes stay.
    ensures waiting_size { size_of waiting.new ≡ size_of waiting.old }
    ensures answers_size { size_of answers.new ≡ size_of answers.old }
{
    let Some(front) = waiting.front_ref() else {
        execution.kind = ExecutionKind::Empty;
        return;
    };
    if command_waits(front.command, answers) {
        execution.kind = ExecutionKind::Full;
        return;
    }
    execution.kind = ExecutionKind::Ran {
        host: front.slid,
        tag: front.tag,
    };
    execution.request = request_of(front).unwrap();
    execution.answer = answer_to(&execution.request, banks, registers, bench);
    put_reply(answers, front, &execution.request, &execution.answer);
    waiting.drop_front();
}

/// The same, which returns what was done.
pub fn execute_front<B: Workbench>(
    waiting: &mut Queue,
    answers: &mut Queue,
    banks: &mut Banks,
    registers: &mut Registers,
    bench: &mut B,
) -> Executed
    requires { ForSome (slice_get (packets_of waiting.old) 0) CarriesRequest }
    ensures answer { result ≡ execute_says (packets_of waiting.old) (packets_of answers.old)
        (size_of answers.old) (cube_state_of banks.old registers.old) (B.slots bench.old) }
    ensures empty { (result ≡ Executed.Empty) ↔ (packets_of waiting.old ≡ []) }
    ensures cube { cube_state_of banks.new registers.new
        ≡ cube_after result (cube_state_of banks.old registers.old) (B.slots bench.old) }
    ensures slots { B.slots bench.new
        ≡ slots_after result (cube_state_of banks.old registers.old) (B.slots bench.old) }
    ensures shape { banks.new.shape ≡ banks.old.shape }
    ensures waiting { packets_of waiting.new ≡ waiting_after result (packets_of waiting.old) }
    ensures answers { packets_of answers.new ≡ answers_after result (packets_of answers.old) }

    // The sizes stay.
    ensures waiting_size { size_of waiting.new ≡ size_of waiting.old }
    ensures answers_size { size_of answers.new ≡ size_of answers.old }
{
    let mut execution = Execution::new();
    execute_front_in(waiting, answers, banks, registers, bench, &mut execution);
    execution.executed()
}

/// Whether the front of a queue has an answer for which there is no room, and its execution would
/// do nothing.
pub fn front_waits(waiting: &Queue, answers: &Queue) -> bool
    ensures { result ≡ front_waits (packets_of waiting.now) (packets_of answers.now)
        (size_of answers.now) }
{
    match waiting.front_ref() {
        Some(front) => command_waits(front.command, answers),
        None => false,
    }
}

// Whether a command has an answer and there is no room for it.
fn command_waits(command: Command, answers: &Queue) -> bool
    ensures { result ≡ command_waits command (packets_of answers.now) (size_of answers.now) }
{
    !command.posted() && answers.size() <= answers.used()
}

// Performs a request. A response can carry the answer, unless the request is posted.
fn answer_to<B: Workbench>(
    request: &Request,
    banks: &mut Banks,
    registers: &mut Registers,
    bench: &mut B,
) -> Answer
    ensures outcome { outcome_of_parts banks.new registers.new (B.slots bench.new) result
        ≡ perform_on (cube_state_of banks.old registers.old) (B.slots bench.old) request.now }
    ensures shape { banks.new.shape ≡ banks.old.shape }
    ensures carried { is_posted request.now.command ≡ false → CanReply result }
{
    request.invariant();
    banks.invariant();
    registers.invariant();
    perform(banks, registers, bench, request)
}

// Puts the reply to the request of a packet into the answers, unless the request is posted.
fn put_reply(answers: &mut Queue, packet: &Packet, request: &Request, answer: &Answer)
    requires carried { is_posted request.now.command ≡ false → CanReply answer.now }
    requires room { must_wait request.now (packets_of answers.old) (size_of answers.old) ≡ false }
    ensures answers { packets_of answers.new ≡ packets_of answers.old
        ++ replies_to request.now answer.now packet.now.slid packet.now.tag }
    ensures size { size_of answers.new ≡ size_of answers.old }
{
    if !request.command.posted() {
        answers.put(&reply(answer, packet.tag, packet.slid, request.cube));
    }
}
