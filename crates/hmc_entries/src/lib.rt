//! The entries of a journal: what happened at each step of a run, and the line that shows it.
//!
//! An [`Entry`] is what happened at one step. [`LastEntry`] has the one of the latest step in one
//! place, and writes its line. [`Journal`] keeps all of them. `Entry::parse` reads a line back.
//! Which entries a run has is in hmc_journal.
#![tactic(auto)]

mod entry;
mod event;
mod fits;
mod head;
mod idle_line;
mod idle_step;
mod journal;
mod last_entry;
mod laws;
mod line;
mod outcome;
mod parse;
mod parse_parts;
mod parse_words;
mod pieces;

pub use entry::Entry;
pub use event::Event;
pub use fits::step_fits;
pub use hmc_packet::Outcome;
pub use idle_step::IdleStep;
pub use journal::Journal;
pub use last_entry::LastEntry;
pub use laws::{lines_are_in_order, text_tells};
pub use outcome::{Cause, Goal};
