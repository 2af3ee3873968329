//! Lawful journals deliver requests and answers in order, over every hop.
//!
//! The functions have no code: their clauses are the laws. Each entry of a lawful journal moves
//! packets as a map allows it (hmc_hops), so what hmc_hops proves of moves holds of journals.
//! [`journal_guarantees`] has all that is promised of the journal of a case (`Guarantees` of
//! hmc_journal).
#![tactic(auto)]

mod laws;

pub use laws::{journal_guarantees, lawful_awaits_answers, lawful_delivers, lawful_is_served};
