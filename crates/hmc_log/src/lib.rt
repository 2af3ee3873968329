//! Logs of what hosts saw: requests given, answers taken, logic units retired, and what was there
//! at the end.
//!
//! A line of a log is one of a report: `gave`, `took`, `retired`, and then, where the log has an
//! end, `memory`, `register` and last `state`. [`Log::parse`] reads a text for a case with these
//! hosts and cubes, and returns the log, or the first fault with its line, by `specs/Text.antt`.
//! [`Log::print`] writes a log as a text.
//!
//! `specs/Log` has what a log is, `Lines` its lines, `Before` what the lines before say, `Answers`
//! which answers a response can carry, and `Meaning` what a line states by itself.
#![tactic(auto)]

mod answers;
mod counts;
mod end_lines;
mod end_read;
mod entry_read;
mod fault;
mod given;
mod knowing;
mod laws;
mod line;
mod log;
mod parse;
mod print;
mod reading;
mod words;

pub use end_lines::{End, MemoryLine, RegisterLine};
pub use fault::{LogFault, LogKind};
pub use laws::{printed_is_read, read_entries_fit};
pub use line::{bad_line, no_text_line};
pub use log::Log;
