//! Why a link that retries is a list, by numbers alone.
//!
//! A direction of a link has a sender, a line and a receiver. Here a packet is a number of flits
//! and of tokens, and a flit is "flit k of packet n", with no bytes. A list of events says what
//! happened: sends, landings of whole or changed flits, acknowledgements and unlocks. `May` says
//! when an event may come, and `happens` what it changes. Two directions together are a pair, and a
//! list of turns says what happened to it; there a landing of one direction acknowledges packets of
//! the other.
//!
//! The functions have no code. Their clauses are the laws, which hold after each list of events
//! that may come:
//!
//! - Packets are begun, accepted and acknowledged in order ([`accepts_what_was_begun`]), and only
//!   what was begun is sent again ([`sends_what_was_begun`]).
//! - A receiver in Good gets packets whole ([`keeps_packets_whole`]), and skips none
//!   ([`skips_no_packet`]). From FRP and SEQ it knows the next packet and a repeat, where the retry
//!   buffer is at most half the modulus ([`shows_repeats`]); a return pointer is as clear
//!   ([`shows_acknowledged`]).
//! - Data that reads as IRTRYs makes no run of 24 ([`counts_real_runs`]).
//! - So requests and responses leave a direction in the order in which they entered it
//!   ([`is_a_list`]).
//! - Acknowledgements are of accepted packets ([`acknowledges_what_was_accepted`]), training comes
//!   first ([`trains_first`]), and no token is lost or made ([`keeps_tokens`]).
//!
//! [`in_order`] and [`joined`] have the same as one record. The crate hmc_wire shows that each
//! entry of a link is such an event, and so has the laws for flits. docs/retry.md explains the
//! invariant; proofs/Order.antt has it. proofs/Worked.antt and proofs/WorkedPair.antt compute short
//! lists of a direction and of a pair, and proofs/Needed.antt shows that the bounds are exact.
#![tactic(auto)]

mod laws;

pub use laws::{
    accepts_what_was_begun, acknowledges_what_was_accepted, counts_real_runs, in_order, is_a_list,
    joined, keeps_packets_whole, keeps_tokens, sends_what_was_begun, shows_acknowledged,
    shows_repeats, skips_no_packet, trains_first,
};
