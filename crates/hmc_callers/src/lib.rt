//! Callers of the crates that are useful alone: one file for each crate, quoted by its
//! `CALLING.md`. `units` is the example of docs/units.md.
#![tactic(auto)]

mod case;
mod crc;
mod link;
mod net;
mod packet;
mod report;
mod serial;
mod session;
mod units;

pub use case::is_case;
pub use crc::is_check_of;
pub use link::{goes_on, offer};
pub use net::entry_of;
pub use packet::round_trip;
pub use report::ending_of;
pub use serial::answer_of;
pub use session::ask_and_run;
pub use units::{Swap, swapped_by_bench};
