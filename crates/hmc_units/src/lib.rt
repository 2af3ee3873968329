//! Logic units: what a unit is, the bench that holds units in slots, and two shipped kinds, each a
//! type of its own and both together [`Shipped`].
//!
//! A unit serves the unit commands of one cube and code. It is known by its interface alone: a
//! state, which is a list of numbers, and two functions of a state, a block and an operand, which
//! give the next state and what the work makes of the block. A bench is a list of slots. Each slot
//! has a unit, or is empty after its unit was retired.
//!
//! The layers above take any [`Workbench`]. They see its slots, and what `work` and `retire` make
//! of them.
#![tactic(auto)]

mod boxed;
mod laws;
mod reverse;
mod shipped;
mod slot;
mod slots;
mod stamp;
mod unit;
mod workbench;

pub use laws::empty_slots_stay_empty;
pub use reverse::Reverse;
pub use shipped::Shipped;
pub use slots::{Bench, Slots};
pub use stamp::Stamp;
pub use unit::LogicUnit;
pub use workbench::Workbench;
