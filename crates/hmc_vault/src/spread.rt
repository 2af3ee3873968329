//! What a spread returns.

/// What a spread of a vault did.
#[derive(Clone, Copy, PartialEq, Eq)]
pub enum Spread {
    /// Nothing: the vault queue is empty.
    Empty,
    /// Nothing: the queue of the front's bank is full.
    Full,
    /// The front went to the queue of this bank, below 16.
    Moved { bank: u8 },
}
