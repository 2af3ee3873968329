//! What a landing of a link gives.

use hmc_codes::Flit;
use hmc_packet::Landed;

/// What a landing of a link gives.
#[derive(Clone, Copy)]
pub enum LinkLanded {
    /// Nothing: the line is empty.
    Empty,
    /// A check succeeded over flits one of which was changed; this is the flit that landed.
    Passed(Flit),
    /// A flit landed.
    Came {
        /// The front of the line, with the bits of the mask inverted.
        flit: Flit,
        /// What the receiver makes of it, with the packet where one is accepted.
        outcome: Landed,
    },
}
