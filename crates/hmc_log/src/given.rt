//! What a line of a request or of an answer states.

use hmc_codes::{Answer, Request};

/// A request that a host gave.
#[derive(Clone, Copy)]
pub struct Given {
    /// The host.
    pub host: u8,
    /// The tag, or None for a request that takes none.
    pub tag: Option<u16>,
    /// Whether it was sent poisoned.
    pub poisoned: bool,
    /// The request.
    pub request: Request,
}

/// An answer that a host took.
#[derive(Clone, Copy)]
pub struct Taken {
    /// The host.
    pub host: u8,
    /// The tag.
    pub tag: u16,
    /// The answer.
    pub answer: Answer,
}
