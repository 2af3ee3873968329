//! Which answers a response to a request can carry.

ghost use Rattle.std.specs.Prelude.{◌≡◌};
ghost use Rattle.hmc_serial.specs.Actions.{action_of};
ghost use Rattle.hmc_log.specs.Answers.{takes_tag, returned_by, is_error, has_bytes, has_flag, has_value, has_nothing, is_answer_to};

use hmc_codes::{Answer, Command};
use hmc_serial::Action;

/// Whether a request takes a tag: unless it is posted or poisoned.
pub fn takes_tag(poisoned: bool, command: Command) -> bool
    ensures { result ≡ takes_tag poisoned command }
{
    !poisoned && !command.posted()
}

// The bytes that a response returns.
fn returned_by(command: Command) -> usize
    ensures { result ≡ returned_by (action_of command) }
{
    match Action::of(command) {
        Some(Action::Read(size)) => usize::from(size),
        _ => 16,
    }
}

fn is_error(errstat: u8) -> bool
    ensures { result ≡ is_error errstat }
{
    1 <= errstat && errstat <= 6
}

fn has_bytes(reply: Option<Command>) -> bool
    ensures { result ≡ has_bytes reply }
{
    matches!(reply, Some(Command::RdRs))
}

fn has_flag(reply: Option<Command>) -> bool
    ensures { result ≡ has_flag reply }
{
    matches!(reply, Some(Command::WrRs))
}

fn has_value(reply: Option<Command>) -> bool
    ensures { result ≡ has_value reply }
{
    matches!(reply, Some(Command::MdRdRs))
}

fn has_nothing(reply: Option<Command>) -> bool
    ensures { result ≡ has_nothing reply }
{
    matches!(reply, Some(Command::MdWrRs))
}

/// Whether a response to a request with this command can carry the answer.
#[tactic(auto, unfolding(crate::specs::Answers::is_answer_to))]
pub fn is_answer_to(command: Command, answer: &Answer) -> bool
    ensures { result ≡ is_answer_to command answer.now }
{
    match answer {
        Answer::Silent => false,
        Answer::Done { .. } => has_flag(command.reply()),
        Answer::Read { payload, .. } => {
            let fits = payload.len() == returned_by(command);
            has_bytes(command.reply()) && fits
        }
        Answer::Register { .. } => has_value(command.reply()),
        Answer::Stored => has_nothing(command.reply()),
        Answer::Refused { errstat } => is_error(*errstat),
    }
}
