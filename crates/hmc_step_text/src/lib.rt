//! Steps as lines of a schedule.
//!
//! [`step_line`] writes the line of a step, by `specs/Text.antt`. A text of such lines is read
//! again as the same steps (`printed_steps_are_read`).
#![tactic(auto)]

mod laws;
mod line;

pub use laws::printed_steps_are_read;
pub use line::{StepText, step_line};
