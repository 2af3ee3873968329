//! Cases: the parts of a network, a script and a schedule, as a TOML document.
//!
//! [`Case::read`] reads bytes and returns the case, or the first fault with its section and line,
//! by `specs/Case.antt`. The definition is a chain of steps in the order of the faults: the
//! document, its keys, the cubes, what they are together, the links, what these are together, the
//! script and the schedule. [`Case::of`] makes a case of its parts, with no text.
//!
//! Contracts see a case as the record `CaseFields`. Every case keeps `IsCase`, which is the
//! contract of [`Case::invariant`]: the sizes keep their limits, the cubes and links are a graph in
//! one part, and each number that a link, a request or a step names is one of the case. The
//! schedule is for the plan `plan_of`.
#![tactic(auto)]

mod case;
mod cube;
mod fault;
mod graph;
mod keys;
mod line;
mod link;
mod net;
mod parts;
mod place;
mod plan;
mod rows;
mod setup;
mod texts;
mod together;

pub use case::Case;
pub use fault::{CaseFault, CaseKind, Section};
pub use line::bad_line;
pub use setup::{CubeSetup, LinkRow};
