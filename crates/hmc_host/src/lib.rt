//! A host: its requests, and the tags under which it awaits answers.
//!
//! The model: a host is its number, its own requests that it has not given yet, the number of those
//! given, and a flag for each of its tags, true where the tag is out (`HostFields`).
//! [`Host::give`] returns `give_says`, with the tag that `lowest_free` names, and leaves
//! `after_give`; [`Host::settle`] returns `settle_says` and leaves `after_settle`. At `Ended`,
//! `Fence`, `Tags`, `Full` and `Discarded` nothing changes. [`Host::hindrance`] is the reason where
//! a give gives nothing: it asks without making a packet. The layer above cites these words alone.
//!
//! A host that is asked while it runs ([`Host::ask`]) takes 4,294,967,295 requests in all. It
//! forgets those that it gave, so that its memory is that of the requests that wait.
//!
//! A [`HostBuffer`] is the input buffer of a host's end of its link.
#![tactic(auto)]

mod given;
mod host;
mod settled;
mod tags;
mod waiting;

pub use given::{Given, Hindrance};
pub use hmc_tokens::FlitBuffer as HostBuffer;
pub use host::Host;
pub use settled::Settled;
