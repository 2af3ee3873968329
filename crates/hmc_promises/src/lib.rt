//! What is promised of a journal after each step, in one record.
//!
//! The functions have no code: their clauses are the laws. `specs/StepGuarantees.antt` collects
//! what hmc_laws and hmc_delivery prove of every lawful journal; the steps of a network state it of
//! their journal. The definitions are in hmc_journal.
#![tactic(auto)]

mod laws;

pub use laws::{drained_is_tested, journal_keeps_guarantees, lawful_guarantees};
