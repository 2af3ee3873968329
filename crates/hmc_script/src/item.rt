//! The requests of a script.

use hmc_codes::{Command, Request};

/// A request of a script.
#[derive(Clone, Copy)]
pub struct Item {
    /// The host that asks, below 8.
    pub host: u8,
    /// Whether a fence of the host is before the request and after the host's previous one, if
    /// there is one. The request then waits until no tag of the host is out.
    pub fenced: bool,
    /// Whether the request is sent poisoned: the first cube that accepts it drops it, and nothing
    /// answers it.
    pub poisoned: bool,
    /// The request.
    pub request: Request,
}

/// What of an item decides when it may be given: all but the host, the cube, the address and the
/// payload.
#[derive(Clone, Copy, PartialEq, Eq)]
pub struct Outline {
    /// Whether a fence is before the request.
    pub fenced: bool,
    /// Whether the request is sent poisoned.
    pub poisoned: bool,
    /// The request's command.
    pub command: Command,
}
