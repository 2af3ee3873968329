//! A judge of what hosts saw: it checks that executions explain a log.
//!
//! An explanation of a log is a journal: the log with executions put in. `explains` walks over it
//! once, with a plain machine, the requests that wait and the answers that are ready, and says
//! whether it is one. Who found it needs no trust. `judge` searches: it keeps the states that the
//! entries lead to, and says whether there is an explanation.
#![tactic(auto)]

mod after;
mod explain;
mod held;
mod holder;
mod machine;
mod next;
mod nexts;
mod same;
mod takes;
mod verdict;
mod walk;

use after::after;
pub use explain::{Explanation, explains};
pub use held::Held;
use held::started;
pub use holder::Holder;
pub use machine::Machine;
use nexts::nexts;
use takes::{retires, takes};
pub use verdict::{Verdict, judge};
