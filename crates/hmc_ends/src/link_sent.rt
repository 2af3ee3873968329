//! What a send of a link gives.

use hmc_codes::Flit;
use hmc_packet::What;

/// What a send of a link gives.
#[derive(Clone, Copy, PartialEq, Eq)]
pub enum LinkSent {
    /// A flit, now the last on the line, and what it is sent as.
    Out {
        /// The flit.
        flit: Flit,
        /// What it is sent as.
        what: What,
    },
    /// Nothing: the line holds as many flits as it can.
    Full,
    /// Nothing: the next flit of a packet that is forwarded isn't there yet.
    Starved,
}
