//! The two directions of a link.

/// A direction of a link.
#[derive(Clone, Copy)]
pub enum Toward {
    /// Away from the host.
    Forth,
    /// Towards the host.
    Back,
}
