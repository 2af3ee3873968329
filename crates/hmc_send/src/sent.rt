//! What a send gives.

use hmc_codes::Flit;
use hmc_packet::What;

/// What a send gives.
#[derive(Clone, Copy, PartialEq, Eq)]
pub enum Sent {
    /// A flit, and what it is sent as.
    Out {
        /// The flit.
        flit: Flit,
        /// What it is sent as.
        what: What,
    },
    /// Nothing: the next flit of a packet that is passed on isn't there yet.
    Starved,
}
