//! Pipes: a packet that leaves a cube before it has come whole.
//!
//! A [`Pipe`] holds the flits of a packet that a receiver is gathering, and gives to the sender
//! that passes the packet on what each flit of its copy is made of: `feed_at`. The flits before the
//! last are copied as they came. The last one waits until the gathering has ended; the copy is good
//! exactly where the packet was accepted.
#![tactic(auto)]

mod pipe;

pub use hmc_packet::{Feed, Landed};
pub use pipe::Pipe;
