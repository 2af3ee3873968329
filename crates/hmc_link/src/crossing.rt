//! The landing of the front of a line.

ghost use Rattle.std.specs.Prelude.{◌≡◌, ◌-◌, List, length, true, false};
ghost use Rattle.hmc_codes.specs.Link.{LinkFields};
ghost use Rattle.hmc_packet.specs.Receptions.{landed_with};
ghost use Rattle.hmc_send.specs.LinkCalls.{LinkCall};
ghost use Rattle.hmc_send.specs.LinkEntries.{LinkEntry};
ghost use Rattle.hmc_send.specs.declared.toward.Toward.{Toward};
ghost use Rattle.hmc_ends.specs.Answers.{after_call};
ghost use Rattle.hmc_ends.specs.Landings.{removed, stored, IsUntouched};
ghost use Rattle.hmc_ends.specs.Outcomes.{link_landed_with, outcome_passed, outcome_none};
ghost use Rattle.hmc_ends.specs.StandsFor.{EndsStandFor, AreEnds};
ghost use Rattle.hmc_link_end.specs.Answers.{land_answer};

use hmc_codes::Flit;
use hmc_ends::LinkOutcome;
use hmc_link_end::{End, stored_packet};
use hmc_packet::{Outcome, Packet, changes, under_mask};
use hmc_tokens::Intake;

/// Whether a change passed.
pub fn has_passed(landing: &LinkOutcome) -> bool
    ensures { result ≡ outcome_passed landing.now }
{
    matches!(landing, LinkOutcome::Passed(_))
}

// How many requests and responses a landing with this outcome accepted.
fn stored_packets(outcome: Outcome, packet: &Packet) -> u32
    ensures { result ≡ length (stored (landed_with outcome packet.now)) }
{
    match stored_packet(outcome, packet) {
        Some(_) => 1,
        None => 0,
    }
}

/// The length of a list without what a landing removes: this packet, where it was accepted.
pub fn without_landed(listed: u32, landing: &LinkOutcome, packet: &Packet) -> u32
    ensures { result ≡ listed - length (removed (link_landed_with landing.now packet.now)) }
{
    match landing {
        LinkOutcome::Came { outcome, .. } => {
            listed.saturating_sub(stored_packets(*outcome, packet))
        }
        LinkOutcome::Empty | LinkOutcome::Passed(_) => listed,
    }
}

/// Lands the front of the line of one end at the other, under a mask. Where a packet is accepted,
/// the other end lends it.
#[inline(always)]
pub fn cross<S: Intake, L: Intake>(from: &mut End<S>, to: &mut End<L>, mask: &Flit) -> LinkOutcome
    requires { AreEnds from.old to.old }
    ensures answer { (link : LinkFields) (d : Toward) (past : List LinkEntry) →
        EndsStandFor link d from.old to.old past →
        link_landed_with result to.new.receiver.packet ≡ land_answer link d past mask.now }
    ensures stands { (link : LinkFields) (d : Toward) (past : List LinkEntry) →
        EndsStandFor link d from.old to.old past → outcome_passed result ≡ false →
        EndsStandFor link d from.new to.new (after_call link past (LinkCall.land d mask.now)) }
    ensures from_untouched { outcome_passed result ≡ true → IsUntouched from.old from.new }
    ensures to_untouched { outcome_passed result ≡ true → IsUntouched to.old to.new }
    ensures from_idle { outcome_none result ≡ true → from.new ≡ from.old }
    ensures to_idle { outcome_none result ≡ true → to.new ≡ to.old }
{
    let Some(sent) = from.take_flit() else {
        return LinkOutcome::Empty;
    };
    let flit = under_mask(mask, &sent);
    match to.land_in_place(&flit, changes(mask)) {
        None => LinkOutcome::Passed(flit),
        Some(outcome) => {
            from.leave_transit(to.arrived_flits(outcome));
            LinkOutcome::Came { flit, outcome }
        }
    }
}
