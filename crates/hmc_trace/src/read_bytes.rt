//! The bytes that a request reads.

ghost use Rattle.std.specs.Prelude.{◌≡◌};
ghost use Rattle.hmc_serial.specs.Actions.{action_of};
ghost use Rattle.hmc_accesses.specs.InOrder.{known_answer};
ghost use Rattle.hmc_accesses.specs.Value.{read_bytes, size_by, bytes_at};

use hmc_codes::{Answer, Command, Payload};
use hmc_script::Script;
use hmc_serial::Action;

// The bytes of an answer, if it is one of a read of so many.
fn read_bytes(size: usize, answer: Answer) -> Option<Payload>
    ensures { result ≡ read_bytes size answer }
{
    match answer {
        Answer::Read { flag: _, payload } => {
            if payload.len() == size {
                return Some(payload);
            }
            None
        }
        _ => None,
    }
}

// How many bytes a request reads.
fn size_of(command: Command) -> usize
    ensures { result ≡ size_by (action_of command) }
{
    match Action::of(command) {
        Some(Action::Read(size)) => usize::from(size),
        _ => 0,
    }
}

// The answer to a request, where it is known.
fn known_answer(answers: &[Option<Answer>], place: u32) -> Option<Answer>
    ensures { result ≡ known_answer answers.now place }
{
    *answers.get(place as usize)?
}

/// The bytes that a request of the script reads, by the answers to its requests.
pub fn bytes_at(script: &Script, answers: &[Option<Answer>], place: u32) -> Option<Payload>
    ensures { result ≡ bytes_at (known_answer answers.now) script.now place }
{
    let outline = script.outline(place)?;
    let answer = known_answer(answers, place)?;
    read_bytes(size_of(outline.command), answer)
}
