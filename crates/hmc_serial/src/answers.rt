//! The answers to requests.

ghost use Rattle.std.specs.Prelude.{◌≡◌};
ghost use Rattle.hmc_codes.specs.Commands.{reply_of};
ghost use Rattle.hmc_serial.specs.Perform.{acted_answer, answer_unless_posted};

use hmc_codes::{Acted, Answer, Command, Payload};

/// The answer, or `Silent` to a posted request.
pub fn answer_unless_posted(command: Command, answer: Answer) -> Answer
    ensures { result ≡ answer_unless_posted command answer }
{
    if command.posted() {
        Answer::Silent
    } else {
        answer
    }
}

/// The answer to an atomic command: the old bytes if its response is RD_RS, and the flag alone if
/// it is WR_RS.
pub fn acted_answer(command: Command, acted: &Acted) -> Answer
    ensures { result ≡ acted_answer (reply_of command) acted.now }
{
    let flag = acted.flag;
    match command.reply() {
        Some(Command::RdRs) => {
            let payload = Payload::from_slice(&acted.answer).unwrap();
            Answer::Read { flag, payload }
        }
        Some(Command::WrRs) => Answer::Done { flag },
        _ => Answer::Silent,
    }
}
