//! What hosts see of a network, and which executions explain it.
//!
//! The functions have no code: their clauses are the laws. A log (`seen_of` in
//! `specs/Seen.antt`) has what the hosts saw alone; `specs/Explained.antt` says which logs can be.
#![tactic(auto)]

mod laws;

pub use laws::{
    ends_are_explained, explanations_go_by_steps, runs_are_explained, shorter_logs_are_explained,
};
