//! A report is checked by itself.
//!
//! [`check`] says of a report whether it is the text of a whole lawful journal of a case
//! (`specs/Verdict.antt`), and if not, which is its first line that no such text has. It takes the
//! steps of the case with a state of its own ([`past`](past)), makes the lines that are due in a
//! text of 8 KiB, and compares many of them with the report's bytes at once: nothing is parsed and
//! no line is remembered. [`due_line`] gives one of the lines that are due.
#![tactic(auto)]

mod checker;
mod compare;
mod due;
mod laws;
mod past;

pub use checker::{CheckFault, check};
pub use due::due_line;
pub use laws::one_verdict;
