//! What is counted of a step.

use hmc_codes::Unit;
use hmc_packet::Outcome;

/// What a step is counted as: a part of its entry.
#[derive(Clone, Copy, PartialEq, Eq)]
pub enum Event {
    /// This host gave a request.
    Gave { host: u8 },
    /// A flit was sent in this direction.
    Sent { direction: u8 },
    /// A flit landed in this direction.
    Landed { direction: u8, outcome: Outcome },
    /// The receiver of this direction lost its framing.
    Unlocked { direction: u8 },
    /// This host took an answer.
    Took { host: u8 },
    /// This unit executed a request.
    Executed { unit: Unit },
    /// This cube dropped a poisoned packet.
    Dropped { cube: u8 },
    /// Anything else: nothing is counted.
    Other,
}
