//! What flits are read as.

use crate::Packet;

/// A packet, and the return pointer that it was sent with.
#[derive(Clone, Copy)]
pub struct Seen {
    /// The packet.
    pub packet: Packet,
    /// Below the modulus of the profile, and 0 of a NULL.
    pub rrp: u16,
}
