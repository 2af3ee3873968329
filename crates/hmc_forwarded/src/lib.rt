//! What a network sends on before it has come whole: the copies that its cubes send are those of
//! hmc_copies.
//!
//! The function has no code: its clause is the law.
#![tactic(auto)]

mod laws;

pub use laws::networks_send_copies;
