//! The topology of a network in memory: where directions start, and where packets go.
//!
//! [`Wiring`] finds the direction of a place, and the way of a packet from a cube, by index.
//! `specs/Ready.antt` says which steps are of parts that are there; those of a case are
//! (`proofs/Cases.antt`).
#![tactic(auto)]

mod starts;
mod wiring;

pub use wiring::Wiring;
