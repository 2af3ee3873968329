//! What a link promises: the laws of its list of entries that a caller of a link relies on.
//!
//! The functions have no code: their clauses are the laws, over the definitions of hmc_send and
//! over every list that is kept (`IsKept` of hmc_wire). A link represents such a list as long as no
//! change passed a check, and its calls state the same of what they give (hmc_link).
//!
//! - [`starved_sends_wait`], [`nulls_come_last`], [`one_code_returns_most`]: when a send gives
//!   nothing, when it gives a NULL, and which code it returns tokens by.
//! - [`queues_and_lines_fit`]: an output queue and a line are no longer than they may be.
//! - [`calls_keep_the_other_list`], [`sends_change_lists`]: what a call does to the two lists.
//! - [`tokens_balance`]: the five numbers of a direction's tokens, none of them below zero.
//! - [`counted_pointers_acknowledge`]: a return pointer that is counted is never stray.
//! - [`runs_are_real`]: the 17th and each later IRTRY of a run was sent as one.
//! - [`lines_are_of_numbers`], [`items_are_of_flits`]: the line of hmc_numbers is that of the list,
//!   and each of its items is a flit of the wire.
//! - [`packets_are_whole`]: on a wire packets are whole and unmixed.
#![tactic(auto)]

mod lists;
mod pointers;
mod runs;
mod sends;
mod tokens;
mod wires;

pub use lists::{calls_keep_the_other_list, queues_and_lines_fit, sends_change_lists};
pub use pointers::counted_pointers_acknowledge;
pub use runs::{items_are_of_flits, lines_are_of_numbers, runs_are_real};
pub use sends::{nulls_come_last, one_code_returns_most, starved_sends_wait};
pub use tokens::tokens_balance;
pub use wires::packets_are_whole;
