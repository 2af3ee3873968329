//! A vault: the queues between a cube's ports and its banks.
//!
//! A packet enters the vault queue, spreads to the queue of the bank that its address names, and is
//! executed there. Its reply waits in the answers queue until it is lifted. Each queue keeps its
//! order, and all queues have room for the same number of packets.
//!
//! The model: a vault is the lists of its packets and their size (`VaultFields`). `spread_says` and
//! `execute_says` are what a spread and an execution return. `spread_gives`, `execute_gives` and
//! `cube_after` are what they leave, by what they returned: at Empty and Full nothing changes. An
//! execution performs the front's request as `perform_on` of the plain machine, on the memory and
//! the registers of the whole cube. The layers above cite these definitions.
//!
//! [`execute_front_in`] is the execution by any unit: the registers of a cube have a queue of
//! requests and one of answers too. What it did is written into an [`Execution`], a place for one
//! after another, of which contracts see an [`Executed`]. [`execute_front`] returns that.
#![tactic(auto)]

mod execute;
mod execution;
mod spread;
mod vault;

pub use execute::{Executed, execute_front, execute_front_in, front_waits};
pub use execution::{Execution, ExecutionKind};
pub use spread::Spread;
pub use vault::Vault;
