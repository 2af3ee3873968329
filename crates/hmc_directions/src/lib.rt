//! The ends of links, each by the direction in which it sends, for a checker of reports.
//!
//! [`Ends`] has two ends a link: link i has the directions 2i and 2i + 1, and a direction lands at
//! the end that sends in the opposite one. What the ends hold and answer is by the entries of their
//! links (`EndsHold` in `specs/Ends.antt`). All memory is taken when they are made.
#![tactic(auto)]

mod ends;

pub use ends::Ends;
