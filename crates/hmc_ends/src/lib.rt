//! The ends of a link: what an end holds, and which entries of its link it stands for.
//!
//! A link has two ends. An end sends in one direction, and the other lands at it. What the entries
//! of a link are to an end is in `specs/Parts.antt`, what an end holds in `specs/End.antt`, and
//! when the one is the other in `specs/StandsFor.antt`. Nothing here says how an end is kept:
//! hmc_link_end has ends that answer as this says.
//!
//! Each direction is a list (`specs/List.antt`): what was handed and is not accepted.
//! [`directions_are_lists`] says what each entry does to it.
#![tactic(auto)]

mod feed;
mod laws;
mod link_landed;
mod link_outcome;
mod link_sent;

pub use feed::{feed_is_bytes, flit_is_bytes};
pub use laws::directions_are_lists;
pub use link_landed::LinkLanded;
pub use link_outcome::{LinkOutcome, link_landed_with};
pub use link_sent::LinkSent;
