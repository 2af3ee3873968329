//! What a sender sees of the receiver at its own end.

/// What a receiver waits for.
#[derive(Clone, Copy, PartialEq, Eq)]
pub enum Mode {
    /// For eight training flits or IRTRYs in a row.
    Train,
    /// For a run of Clears, after an error or training.
    Abort,
    /// For packets.
    Good,
}

/// What a sender sees of the receiver at its own end.
#[derive(Clone, Copy, PartialEq, Eq)]
pub struct View {
    pub mode: Mode,
    /// The return pointer to send: the forward pointer of the last packet accepted, 0 at first.
    pub rrp: u16,
}
