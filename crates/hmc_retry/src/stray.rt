//! Pointers that acknowledge nothing.

/// A return pointer that is neither the base of a retry buffer nor the pointer of a kept packet.
#[derive(Clone, Copy, PartialEq, Eq)]
pub struct Stray {
    /// The pointer of the packet that was dropped last, 0 if none was.
    pub base: u16,
    /// The pointer that came.
    pub rrp: u16,
}
