//! What a flit is sent as.

/// What an end of a link sends a flit as.
#[derive(Clone, Copy, PartialEq, Eq)]
pub enum What {
    /// The training flit.
    Train,
    /// An IRTRY that clears the other end's error.
    Clear,
    /// An IRTRY that asks the other end to begin again.
    Start,
    Null,
    Pret,
    /// A TRET that is sent first.
    Tret,
    /// A flit of a packet that is sent first.
    New,
    /// A flit of a packet that is sent again.
    Again,
}
