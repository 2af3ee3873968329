//! From where the final lines are made.

/// The first kind of line that is made.
#[derive(Clone, Copy, PartialEq, Eq)]
pub enum Part {
    /// The lines of memories: all final lines.
    Memory,
    /// The lines of tokens: all final lines except those of memories and registers.
    Tokens,
}
