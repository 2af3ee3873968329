//! The packets that a sender keeps until they are acknowledged.
//!
//! The model: a [`RetryBuffer`] is a list of kept packets, the oldest first, with a base, which is
//! the pointer of the packet before them, and a position, the place of the packet to be sent next.
//! The flits of the kept packets never pass the size, which is at most half of the modulus of the
//! profile's pointers: so a return pointer names at most one kept packet. The layer above rests on
//! `RetryFields` and on what the calls leave of it (`specs/RetryBuffer.antt`); the ring isn't seen.
#![tactic(auto)]

mod buffer;
mod stray;

pub use buffer::RetryBuffer;
pub use stray::Stray;
