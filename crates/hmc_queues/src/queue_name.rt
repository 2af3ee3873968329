//! The queues of a cube by their names.

use hmc_codes::Lift;

/// A queue inside a cube.
#[derive(Clone, Copy, PartialEq, Eq)]
pub enum QueueName {
    /// The requests that wait at a vault.
    Vault(u8),
    /// The requests that wait for a bank: its vault, and its number there.
    Bank(u8, u8),
    /// The requests that wait for the registers.
    Registers,
    /// The answers of a vault, or of the registers.
    Answers(Lift),
}
