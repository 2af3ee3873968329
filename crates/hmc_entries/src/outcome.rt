//! Where a packet went, and why nothing happened.

/// Where a packet went from the buffer of a port.
#[derive(Clone, Copy, PartialEq, Eq)]
pub enum Goal {
    /// The queue of a vault of this cube, by its number, below 32.
    Vault(u8),
    /// The queue of the registers of this cube.
    Registers,
    /// The output queue of a port of this cube, by its number, below 4.
    Port(u8),
}

/// Why a step did nothing. Of several causes the first of these counts.
#[derive(Clone, Copy, PartialEq, Eq)]
pub enum Cause {
    /// The script has no further request of the host.
    Ended,
    /// The host's next request waits after a fence until no tag of the host is out.
    Fence,
    /// The host's next request needs a tag, and all are out.
    Tags,
    /// There is nothing to move.
    Empty,
    /// There is no room where it would go.
    Full,
    /// The next flit of a packet that is forwarded isn't there yet.
    Starved,
    /// No packet that could be forwarded is arriving.
    NoPacket,
    /// The packet can't be forwarded now.
    Busy,
}
