//! The sixteen registers of a cube: its number and shape, which stay, and twelve for scratch.
//!
//! A cube's registers are a list of sixteen numbers of 32 bits. The layers above read and write
//! them by number. A read or write of a number without a register, and a write of the number or the
//! shape, is refused.
#![tactic(auto)]

mod registers;

pub use registers::{FIRST_SCRATCH, REGISTERS, RegisterFault, Registers};
