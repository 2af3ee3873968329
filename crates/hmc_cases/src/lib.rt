//! Each case that is read, and the case of each number, keeps what every case keeps.
//!
//! The functions have no code: their clauses are the laws. They speak of the definitions `case_of`
//! (hmc_case) and `case_of_number` (hmc_make) alone, so a case that no run has read is known too.
#![tactic(auto)]

mod laws;

pub use laws::{made_is_case, read_is_case};
