//! All that the landing of a flit gives, without the packet.

use crate::Outcome;

/// What the landing of a flit gives to its receiver, and to the sender at the same end.
#[derive(Clone, Copy, PartialEq, Eq)]
pub struct Reception {
    /// What the receiver makes of the flit.
    pub outcome: Outcome,
    /// The return pointer that is taken, below the modulus of the link's profile.
    pub rrp: Option<u16>,
    /// Whether a check succeeded over the flit, and over those that were gathered before it.
    pub checked: bool,
}
