//! The ports of a cube, and where a packet goes from one.
//!
//! A [`PortBuffer`] is the input buffer of a port. [`To`] names the places that a packet can go to
//! from there. [`way_of`] is the place of a packet, by the definition `where_to`.
#![tactic(auto)]

mod to;

pub use hmc_tokens::FlitBuffer as PortBuffer;
pub use to::{To, way_of};
