//! A cube: its vaults, its memory and registers, and the queues of the registers.
//!
//! The model: a cube is its memory and registers as in the plain machine (`CubeState`), the list of
//! its vaults, the requests that wait for the registers and their answers, and the size of each
//! queue (`CubeFields`). Each call returns what the vault or the queue that it names returns. What
//! it leaves is a function of that: `after_enter`, `after_spread`, `after_execute`,
//! `after_registers` and `after_lift`. At Empty and Full nothing changes. The layers above cite
//! these definitions and those of the vaults.
#![tactic(auto)]

mod cube;

pub use cube::Cube;
pub use hmc_codes::Lift;
pub use hmc_vault::{Executed, Execution, ExecutionKind, Spread};
