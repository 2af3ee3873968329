//! A link: two ends, and a line each way.
//!
//! A [`Link`] carries packets between two ends, in both directions. In a direction a packet is
//! handed to the output queue of one end (`hand`), sent flit by flit (`send`) onto a line, lands
//! flit by flit at the other end (`land`), and is taken from the buffer there (`take`). A landing
//! is under a mask, whose bits are inverted in the flit: a check finds that, the packets from the
//! changed one on are sent again, and the receiver passes over those that it had before. A packet
//! can be forwarded before it has come whole, a cut-through: `begin_through`, `send` with a feed.
//!
//! A link stands for lists of its entries, the newest first (`LinkStandsFor`): hands, takes, sends,
//! landings, unlocks and packets that begin to be forwarded. Each call answers what the definitions
//! of hmc_send say of each list for which the link stands, and the link then stands for the list
//! with the entry of the call (`after_call`). So the laws of hmc_wire hold of it. A link keeps that
//! it stands for some list, unless a landing passed: a check succeeded over a changed flit. After
//! that no call that changes it may be made, and nothing is claimed of what the others answer.
//!
//! An end (`End` of hmc_link_end) sends in one direction, and the other lands at it. What the
//! entries of a link are to an end, what an end holds, and when the one is the other is in
//! hmc_ends.
//!
//! Each direction is a list (`handed_list` of hmc_ends): what was handed and is not accepted.
//! [`hmc_ends::directions_are_lists`] says what each entry does to it, and `handed` is its length.
#![tactic(auto)]

mod crossing;
mod link;

pub use hmc_codes::{LinkSetup, TokenRow};
pub use hmc_ends::{LinkLanded, LinkOutcome, LinkSent};
pub use hmc_send::Toward;
pub use link::Link;
