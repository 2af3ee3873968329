//! What a landing of a link gives, without the packet that is accepted.

ghost use Rattle.std.specs.Prelude.{◌≡◌};
ghost use Rattle.hmc_ends.specs.Outcomes.{link_landed_with};

use crate::LinkLanded;
use hmc_codes::Flit;
use hmc_packet::{Outcome, Packet};
use hmc_receive::landed_with;

/// What a landing of a link gives, in a few words: where a packet is accepted, the end at which it
/// landed lends it.
#[derive(Clone, Copy)]
pub enum LinkOutcome {
    /// Nothing: the line is empty.
    Empty,
    /// A check succeeded over flits one of which was changed; this is the flit that landed.
    Passed(Flit),
    /// A flit landed.
    Came {
        /// The front of the line, with the bits of the mask inverted.
        flit: Flit,
        /// What the receiver makes of it.
        outcome: Outcome,
    },
}

/// What a landing gives, with the packet where one is accepted.
pub fn link_landed_with(landing: &LinkOutcome, packet: &Packet) -> LinkLanded
    ensures { result ≡ link_landed_with landing.now packet.now }
{
    match landing {
        LinkOutcome::Empty => LinkLanded::Empty,
        LinkOutcome::Passed(flit) => LinkLanded::Passed(*flit),
        LinkOutcome::Came { flit, outcome } => LinkLanded::Came {
            flit: *flit,
            outcome: landed_with(*outcome, packet),
        },
    }
}
