//! What a host does with a packet that came.

use hmc_codes::Answer;

/// What became of a packet that came to a host.
#[derive(Clone, Copy)]
pub enum Settled {
    /// It was poisoned, and was dropped.
    Discarded,
    /// It answered a request.
    Took {
        /// The request's tag, below `TAGS`. It is no longer out.
        tag: u16,
        /// The answer to the request.
        answer: Answer,
    },
}
