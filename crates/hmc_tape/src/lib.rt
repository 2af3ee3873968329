//! Sessions with a tape: what a session was asked and what it did, as a script and a schedule.
//!
//! [`Taped`] is a session that keeps two texts of its requests and of the steps that it took. A
//! case with the cubes and links of the session and with these texts has the session's journal
//! (`a_tape_is_a_case`), so a program that runs cases replays the session.
//!
//! In `specs/`, `Tape` has what a tape is, `Calls` what the calls leave of it, and `Laws` the law.
#![tactic(auto)]

mod append;
mod laws;
mod run;
mod taped;

pub use laws::a_tape_is_a_case;
pub use taped::{NotTaped, Taped};
