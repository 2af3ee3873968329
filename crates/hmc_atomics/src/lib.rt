//! The atomic commands: what each does to a block of 16 bytes, with an operand.
//!
//! A block and an operand are lists of 16 bytes. The layers above see the operation of a command,
//! whether it acts on one half of the block, and what it gives: the new block, the bytes of the
//! answer, and the flag.
#![tactic(auto)]

mod atomic;
mod effect;
mod halves;
mod signed;

pub use atomic::Atomic;
pub use effect::act;
