//! What a packet that is still being gathered offers to the sender that passes it on.

use hmc_codes::Flit;

/// The next flit of a packet that leaves a cube before it has come whole.
#[derive(Clone, Copy, PartialEq, Eq)]
pub enum Feed {
    /// It isn't there yet.
    Waiting,
    /// A flit before the last, as it came.
    Whole(Flit),
    /// What the last flit is made of.
    Last {
        /// Its first eight bytes.
        half: [u8; 8],
        /// SLID of a request, below 8.
        slid: u8,
        /// ERRSTAT of a response, below 128.
        errstat: u8,
        /// Whether the packet was accepted; else the copy is poisoned.
        good: bool,
    },
}
