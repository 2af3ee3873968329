//! What a host gives.

use hmc_codes::Request;
use hmc_packet::Packet;

/// What a host did that was asked for its next request.
#[derive(Clone, Copy)]
pub enum Given {
    /// Nothing: no request is left.
    Ended,
    /// Nothing: the next request is after a fence, and some tag is out.
    Fence,
    /// Nothing: the next request needs a tag, and all are out.
    Tags,
    /// Nothing: the link has no room.
    Full,
    /// This packet.
    Gave {
        /// Carries the request.
        packet: Packet,
        /// The next request of the host.
        request: Request,
        /// The tag under which the answer is awaited, below `TAGS`. Nothing answers a posted or a
        /// poisoned request: it has no tag, and its packet carries 0.
        tag: Option<u16>,
        /// Whether the packet is poisoned.
        poisoned: bool,
    },
}

/// Why a host gives nothing. The first of several causes counts.
#[derive(Clone, Copy, PartialEq, Eq)]
pub enum Hindrance {
    /// No request is left.
    Ended,
    /// The next request is after a fence, and some tag is out.
    Fence,
    /// The next request needs a tag, and all are out.
    Tags,
    /// The link has no room.
    Full,
}
