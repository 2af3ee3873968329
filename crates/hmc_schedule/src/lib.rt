//! Schedules: in which order the parts of a network work, as a text.
//!
//! A schedule is a list of steps, each of which names one part of a network by its numbers: a host
//! gives or takes, a flit is sent or lands, a cube's port, vault or bank takes one step.
//! [`Schedule::parse`] reads a text for a [`Plan`], which has the parts of the network. It returns
//! the list of steps with every round spelled out, or the first fault with its line, by
//! `specs/Schedule.antt`. Every step names parts of the plan (`IsStepOf`). [`Schedule::rounds`]
//! appends rounds to a schedule without a text. Noise (`specs/Noise.antt`) gives each n-th landing
//! of rounds a mask.
//!
//! A schedule is kept as it is written (`specs/Written.antt`): the steps of one round once, and a
//! segment for each line that states steps. A thousand rounds take no more memory than one, with
//! noise or without.
#![tactic(auto)]

mod fault;
mod meaning;
mod noise;
mod operands;
mod parse;
mod plan;
mod round;
mod rounds_left;
mod schedule;
mod step;
mod steps_left;
mod verb;
mod written;

pub use fault::{ScheduleFault, ScheduleKind};
pub use plan::{CubePlan, Plan};
pub use rounds_left::RoundsLeft;
pub use schedule::Schedule;
pub use step::Step;
pub use steps_left::StepsLeft;
