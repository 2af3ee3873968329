//! The three kinds of packets.

/// What a packet is for.
#[derive(Clone, Copy, PartialEq, Eq)]
pub enum Family {
    /// NULL, PRET, TRET and IRTRY: packets between the two ends of a link.
    Flow,
    /// A request.
    Ask,
    /// A response.
    Reply,
}
