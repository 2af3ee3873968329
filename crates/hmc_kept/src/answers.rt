//! The entries that the answers of a link are.

ghost use Rattle.std.specs.Prelude.{◌≡◌};
ghost use Rattle.hmc_journal.specs.Piped.{goes_on};
ghost use Rattle.hmc_kept.specs.LinkAnswers.{sent_by, landed_by, IsCameFlit};

use hmc_ends::{LinkOutcome, LinkSent, flit_is_bytes};
use hmc_entries::{Cause, IdleStep, LastEntry};
use hmc_packet::Outcome;

/// Whether a landing ends a packet that is forwarded (onto this direction), and that is accepted:
/// it then leaves its buffer at once.
pub fn goes_on(outcome: Outcome, onto: Option<u8>) -> bool
    ensures { result ≡ goes_on outcome onto }
{
    match outcome {
        Outcome::Accepted => onto.is_some(),
        _ => false,
    }
}

/// The last entry becomes that of a send.
#[inline(always)]
pub fn note_sent(last: &mut LastEntry, direction: u8, sent: &LinkSent)
    ensures { last.new ≡ sent_by direction sent.now }
{
    match sent {
        LinkSent::Full => last.idle(IdleStep::Send(direction), Cause::Full),
        LinkSent::Starved => last.idle(IdleStep::Send(direction), Cause::Starved),
        LinkSent::Out { flit, what } => last.sent(direction, *what, flit),
    }
}

/// The last entry becomes that of a landing.
#[inline(always)]
pub fn note_landed(last: &mut LastEntry, direction: u8, landing: &LinkOutcome)
    ensures entry { last.new ≡ landed_by direction landing.now }
    ensures size { IsCameFlit landing.now }
{
    match landing {
        LinkOutcome::Empty => last.idle(IdleStep::Land(direction), Cause::Empty),
        LinkOutcome::Passed(flit) => last.passed(direction, flit),
        LinkOutcome::Came { flit, outcome } => {
            flit_is_bytes(flit);
            last.landed(direction, flit, *outcome);
        }
    }
}
