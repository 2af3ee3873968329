//! Receivers: the end of a link at which flits land.
//!
//! The model: a [`Receiver`] stands for the list of its entries, its landings and unlocks, the
//! newest first (`ReceiverStandsFor`). What a landing gives is a function of that list,
//! `reception_of` in hmc_packet, and so are what the other calls answer. A layer above rests on
//! these words: it never sees pointers, counts or runs.
#![tactic(auto)]

mod landing;
mod receiver;

pub use hmc_packet::{Kind, Landed, Mode, Outcome, Reception, View};
pub use landing::{Landing, landed_with};
pub use receiver::Receiver;
