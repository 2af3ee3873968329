//! The laws of lawful journals, entry by entry, of each queue and of each link.
//!
//! The functions have no code: their clauses are the laws. A journal is the only one of its case,
//! goes on to the end of its schedule, gives what the script has, its executions run in order on a
//! plain machine, its queues and links hold what they should, each direction of a link is a list,
//! and its text shows it. The laws of requests and answers over every hop are in hmc_delivery. The
//! definitions are in hmc_journal.
#![tactic(auto)]

mod journal_text;
mod laws;

pub use journal_text::journal_tells;
pub use laws::{
    lawful_goes_on, lawful_is_drained, lawful_is_scripted, lawful_is_serial,
    lawful_keeps_links_in_order, lawful_keeps_queues, one_journal,
};
