//! The memory of a cube, kept by banks.
//!
//! A memory is its shape and one list of bytes in address order. The layers above read and replace
//! blocks of 16 bytes at multiples of 16. How the banks keep the bytes isn't visible.
#![tactic(auto)]

mod bank;
mod banks;

pub use banks::Banks;
pub use hmc_codes::Shape;
