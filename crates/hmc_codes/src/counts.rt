//! Counts of a run: tokens and flits of each direction, requests and packets of hosts and cubes.

/// The tokens of a direction. Their sum is the number that its receiving end advertises.
#[derive(Clone, Copy, PartialEq, Eq)]
pub struct TokenRow {
    /// Tokens that its sender may still spend.
    pub held: u32,
    /// Flits of packets that were begun and are not accepted yet.
    pub transit: u32,
    /// Flits of packets in the receiving buffer.
    pub used: u32,
    /// Tokens that the receiving end has to return.
    pub due: u32,
    /// Tokens in packets of the other direction that were begun and are not accepted yet.
    pub returning: u32,
}

/// The counts of a direction.
#[derive(Clone, Copy, PartialEq, Eq)]
pub struct Counters {
    /// Flits sent.
    pub sent: u32,
    /// Flits landed.
    pub landed: u32,
    /// Of these, flits that a mask changed.
    pub changed: u32,
    /// Packets accepted, poisoned ones and returns of tokens included.
    pub accepted: u32,
    /// Packets that had been accepted before.
    pub repeats: u32,
    /// Landings after which the receiver waited to be cleared, unlocks in Good included.
    pub aborts: u32,
}

/// The counts of a host.
#[derive(Clone, Copy, PartialEq, Eq)]
pub struct HostCounts {
    /// Requests given.
    pub given: u32,
    /// Answers taken.
    pub taken: u32,
    /// Tags out.
    pub out: u32,
}

/// The counts of a cube.
#[derive(Clone, Copy, PartialEq, Eq)]
pub struct CubeCounts {
    /// Requests executed.
    pub executed: u32,
    /// Poisoned packets dropped.
    pub dropped: u32,
}
