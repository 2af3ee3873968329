//! The queues inside cubes, in one list a cube, for a checker of reports.
//!
//! [`Queues`] has the queues of all cubes, and a [`QueueName`] names one of a cube. The place of a
//! queue in its cube's list is computed from its name (`specs/Queues.antt`). All memory is taken
//! when they are made.
#![tactic(auto)]

mod cube_queues;
mod queue_name;
mod queues;

pub use queue_name::QueueName;
pub use queues::{Queues, QueuesSetup};
