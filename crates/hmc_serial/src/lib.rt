//! What a request does to a cube, and a plain machine of several cubes.
//!
//! A cube is its shape, one list of bytes in address order and a list of sixteen registers. A
//! machine is a list of cubes and the slots of its logic units. `perform_on` is the one definition
//! of what a request leaves of its cube and of the slots, and of its answer, case by case as in the
//! table of commands. `unit_of` is the unit that executes a request. The layers above state their
//! results by these definitions.
#![tactic(auto)]

mod action;
mod answers;
mod blocks;
mod cube;
mod errors;
mod laws;
mod plain;
mod unit;

pub use action::Action;
pub use cube::perform;
pub use laws::{answers_can_be_carried, cubes_stay_cubes};
pub use plain::Plain;
pub use unit::{is_for_registers, unit_of};
