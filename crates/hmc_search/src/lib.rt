//! The search for executions that explain a log.
//!
//! `kept` is the simplest search, as a definition: the states that it keeps after a log. The laws say
//! that it decides whether executions explain the log. The functions with code are the tests that a
//! search and a checker of explanations share.
#![tactic(auto)]

mod free;
mod hand;
mod laws;
mod waiting;

pub use free::{
    in_lane, is_free, is_ready_under, is_under, same_answer, same_unit, shares_tag, unit_in,
};
pub use hand::place_at_hand;
pub use laws::{
    early_ones_lose_nothing, explained_are_reached, reached_are_explained, reads_change_nothing,
    search_decides,
};
pub use waiting::{Ready, Waiting};
