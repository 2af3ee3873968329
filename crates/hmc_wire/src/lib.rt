//! The laws of one link.
//!
//! A link's list of entries says what its calls did, and a list is lawful where each entry is the
//! one that its call makes (hmc_send, `specs/LinkCalls.antt`). Here it is proved what every lawful
//! list has, in both profiles, where the retry buffer is at most half of the modulus, and where
//! what is handed and what is fed are packets and flits (`IsKept`, `specs/LinkLaws.antt`). Masks
//! may change any bits of any flit, as long as no change passes a check. `proofs/Needed.antt`
//! shows that this is needed: after one change that passes, a packet is accepted that was not
//! sent.
//!
//! The functions have no code. Their clauses are the laws:
//!
//! - [`link_is_a_list`]: at the end of a direction the packets that its sender began are accepted
//!   in their order, once each. The sender begins what was put in, in order: packets that were
//!   handed, with their own contents, and cut-throughs, with the length that was named. No landing
//!   is out of order, what is taken for a repeat was accepted before, the packets that may have to
//!   be sent again have room, and each return pointer that is counted names one packet.
//! - [`tokens_add_up`]: no token of a direction is lost or made, and no buffer overflows.
//! - [`entries_are_events`]: each entry is an event of hmc_numbers, where packets are numbers and
//!   flits have no bytes, and the numbers after a list are what the list says.
//!
//! The proof has three parts. hmc_numbers has the invariant, in numbers. The proofs here hold it
//! over a grammar, which says how flits read (`proofs/Grammar.antt` to `proofs/SideLawsHold.antt`);
//! and the packets of hmc_packet are such a grammar (`proofs/PacketGrammar.antt`). Then a sender's
//! choice is an event (`proofs/Choices.antt`), a receiver's landing is one (`proofs/Mirrors.antt`),
//! and `proofs/Joins.antt` goes through a list, entry by entry. docs/retry.md explains the
//! invariant.
#![tactic(auto)]

mod laws;

pub use laws::{entries_are_events, link_is_a_list, tokens_add_up};
