//! All that the landing of a flit gives.

ghost use Rattle.std.specs.Prelude.{◌≡◌};
ghost use Rattle.hmc_packet.specs.Receptions.{landed_with};

use hmc_packet::{Landed, Outcome, Packet};

/// What the landing of a flit gives.
#[derive(Clone, Copy)]
pub struct Landing {
    /// What the receiver makes of the flit, with the packet where one is accepted.
    pub outcome: Landed,
    /// The return pointer that is taken, below the modulus of the link's profile.
    pub rrp: Option<u16>,
    /// Whether a check succeeded over the flit, and over those that were gathered before it.
    pub checked: bool,
}

/// An outcome with the packet that was accepted.
pub fn landed_with(outcome: Outcome, packet: &Packet) -> Landed
    ensures { result ≡ landed_with outcome packet.now }
{
    match outcome {
        Outcome::Quiet => Landed::Quiet,
        Outcome::Trained => Landed::Trained,
        Outcome::Gathered => Landed::Gathered,
        Outcome::Accepted => Landed::Accepted(*packet),
        Outcome::Poisoned => Landed::Poisoned(*packet),
        Outcome::Repeat => Landed::Repeat,
        Outcome::AbortedBad(bad) => Landed::AbortedBad(bad),
        Outcome::AbortedOrder => Landed::AbortedOrder,
        Outcome::Ran(kind) => Landed::Ran(kind),
    }
}
