//! The outcome of a landing, in one word.

use crate::{Bad, Kind};

/// What a receiver makes of a flit, without the packet.
#[derive(Clone, Copy, PartialEq, Eq)]
pub enum Outcome {
    /// Nothing: a NULL, a PRET, an IRTRY of a run that goes on, or a flit that is passed over.
    Quiet,
    /// Training has ended.
    Trained,
    /// The flits of a packet are still being gathered.
    Gathered,
    /// A packet that is the next one.
    Accepted,
    /// The next packet, with the inverse of the right check.
    Poisoned,
    /// A packet that was accepted before.
    Repeat,
    /// The gathered flits are no packet.
    AbortedBad(Bad),
    /// A packet that is neither the next one nor one that was accepted before.
    AbortedOrder,
    /// The 24th IRTRY of this kind in a row.
    Ran(Kind),
}
