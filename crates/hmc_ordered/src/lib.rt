//! Which logs of hosts can be, by the order in which requests arrive at cubes.
//!
//! The functions have no code: their clauses are the laws.
#![tactic(auto)]

mod laws;

pub use laws::{earlier_is_ordered, ordered_is_explained, runs_are_ordered};
