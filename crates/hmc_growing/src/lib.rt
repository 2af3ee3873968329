//! How a case grows while it runs: by one more step, or by one more request.
//!
//! The functions have no code: their clauses are laws of lawful journals. A step of the parts may
//! be added after the steps so far, and a request after the requests so far, exactly where no entry
//! says that its host has given all. Nothing that happened changes then. So a network that is
//! asked and stepped while it runs has, at every moment, the journal of one case: that of the
//! requests asked so far and of the steps taken so far.
//!
//! `with_step`, `with_item` and `IsOpen` are in `specs/Growing.antt`.
#![tactic(auto)]

mod laws;

pub use laws::{a_request_may_be_added, a_step_may_be_added, only_a_give_ends_a_host};
