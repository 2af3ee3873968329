//! The laws of a report's text.
//!
//! The functions have no code: their clauses are the laws. Each line of a report ends in its only
//! line feed, no line of an entry is a final line, and the parts of each entry fit their types. So
//! the bytes of a report show its journal. The definitions are in hmc_entries, hmc_report and
//! hmc_journal.
#![tactic(auto)]

mod laws;

pub use laws::{entries_are_not_final, entries_fit, report_tells, reports_are_lines};
