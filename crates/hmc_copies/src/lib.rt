//! The copies of packets that are forwarded before they have come whole.
//!
//! A cut-through sends a packet on while it is still coming on another link. A `Pipe` (hmc_through)
//! has the flits that came, and a `Sender` (hmc_send) sends the copy, one flit at a time, from what
//! the pipe gives. The law here is about both: whatever their calls are, and in whatever order they
//! are made, the place that the sender gave the packet gets the copy of the flits that came
//! (`IsCopy`, `specs/Copies.antt`). The calls of the two are in `specs/Calls.antt`.
//!
//! The functions have no code: their clauses are the laws.
//!
//! - [`places_are_filled_with_copies`]: the packet of the place is the copy, good exactly where the
//!   packet was accepted.
//! - [`filled_places_stay`]: no later entry of the sender changes the packet of a place.
#![tactic(auto)]

mod laws;

pub use laws::{filled_places_stay, places_are_filled_with_copies};
