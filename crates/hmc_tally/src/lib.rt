//! What the final lines count, kept as the steps are taken, a row a step.
//!
//! [`Tally`] adds the event of an entry. The counts of a journal are those that its entries add up
//! to (`proofs/TallyLaw.antt`). Final values that agree have the same lines (`proofs/Alike.antt`).
#![tactic(auto)]

mod tally;

pub use tally::{HostSteps, Tally, is_good, step_changes};
