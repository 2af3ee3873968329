//! What of a report is written.

/// What of a report is written.
#[derive(Clone, Copy)]
pub enum Extent {
    /// The line of each step, and all final lines. After a landing that passed, no final lines.
    Whole,
    /// The final lines from those of tokens on. Where a landing passed, its line alone.
    Short,
    /// The number of packets under way at the end, and so many whole rounds that drain them with
    /// one cube and one link. Where a landing passed, its line alone.
    Bound,
}
