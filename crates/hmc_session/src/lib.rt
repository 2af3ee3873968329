//! Sessions: a network that is asked for requests and stepped while it runs.
//!
//! [`Session`] has the calls. Requests are values, or lines of a script (`asking`). Steps are
//! values, numbers (`numbers`), or laid down ahead as lines of a schedule ([`Laid`]), and a run
//! takes those up to an entry of a chosen kind (`run`). `showing` has the latest entry, its line
//! and the final lines.
//!
//! In `specs/`, `Session` has what a session stands for, and `Refusals` why it refuses a call.
#![tactic(auto)]

mod ahead;
mod asking;
mod count;
mod laws;
mod numbers;
mod parts;
mod refusal;
mod run;
mod session;
mod showing;
mod stops;

pub use ahead::Laid;
pub use laws::{a_laid_step_is_known, a_run_without_stops_goes_on, a_session_is_a_run};
pub use numbers::step_named;
pub use refusal::{LineNotAsked, NotAsked, NotTaken};
pub use run::Ran;
pub use session::Session;
pub use stops::{NO_STOPS, Stops, no_stops};
