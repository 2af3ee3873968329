//! The queues that answers are lifted from.

/// A queue of answers of a cube.
#[derive(Clone, Copy, PartialEq, Eq)]
pub enum Lift {
    /// The queue of a vault, by its number, below 32.
    Vault(u8),
    /// The queue of the registers.
    Registers,
}
