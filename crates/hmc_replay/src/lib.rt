//! The top call `replay`: from words and input to a report and a status.
//!
//! Its contract is `Replayed` (specs/Top). What a form of words answers to an input, a status and
//! lines, is one relation (`IsAnswer` of specs/Answer), a file for each form: specs/RunAnswer,
//! specs/MakeAnswer, specs/CheckAnswer, specs/BoundAnswer and specs/TraceAnswer. How the input is
//! read and the lines are written is the same for all forms. The report of a case is `report_of`
//! (specs/Report): the lines of the case's one journal, and those of what the journal leaves and
//! counts. What that journal guarantees is said in hmc_journal.
#![tactic(auto)]

mod bound;
mod bound_lines;
mod check;
mod check_input;
mod extent;
mod form;
mod input;
mod laws;
mod on;
mod output;
mod report;
mod run;
mod steps;
mod top;
mod trace;

pub use extent::Extent;
pub use form::is_form;
pub use laws::{answer_exists, answer_is_one};
pub use on::replay_on;
pub use top::replay;
