//! Spans of addresses.

/// The addresses from one up to another.
#[derive(Clone, Copy, PartialEq, Eq)]
pub struct Span {
    /// The first address.
    pub start: u64,
    /// The address after the last one.
    pub end: u64,
}
