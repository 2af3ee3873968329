//! What the landing of a flit gives.

use crate::{Bad, Kind, Packet};

/// What the landing of a flit gives at the receiver.
#[derive(Clone, Copy)]
pub enum Landed {
    /// Nothing: a NULL, a PRET, an IRTRY of a run that goes on, or a flit that is passed over.
    Quiet,
    /// Training has ended.
    Trained,
    /// The flits of a packet are still being gathered.
    Gathered,
    /// A packet that is the next one.
    Accepted(Packet),
    /// The next packet, with the inverse of the right check.
    Poisoned(Packet),
    /// A packet that was accepted before.
    Repeat,
    /// The gathered flits are no packet.
    AbortedBad(Bad),
    /// A packet that is neither the next one nor one that was accepted before.
    AbortedOrder,
    /// The 24th IRTRY of this kind in a row.
    Ran(Kind),
}
