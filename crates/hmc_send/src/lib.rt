//! The sending end of a direction of a link.
//!
//! What a sender did is a list of entries, the newest first: sends with what each was given,
//! counted runs of Starts, acknowledgements, and begun cut-throughs (`specs/Entries.antt`). From
//! that list the definitions read the places, which are the packets in the order in which they were
//! begun for the first time, how many are acknowledged, the position, bursts, and the room.
//! `choice` says what a send gives, as the first of ten cases that applies (`specs/Choice.antt`);
//! `specs/SendRows.antt` has the same as ten rows, and [`sends_are_by_rows`] says so.
//!
//! A [`Sender`] holds a retry buffer, the packet under way, a burst, and a few numbers. `StandsFor`
//! says which lists it stands for, one fact a field: a new one for the empty list, and each call
//! leaves what stands for the list with the entry of the call. Each answer, as that of
//! [`Sender::send`], is that of every list for which the sender stands. No call after `new` takes
//! memory.
#![tactic(auto)]

mod calls;
mod copy;
mod laws;
mod numbers;
mod sender;
mod sent;
mod state;
mod toward;
mod under_way;
mod unfinished;

pub use hmc_packet::{Kind, Mode, View, What};
pub use laws::sends_are_by_rows;
pub use numbers::Numbers;
pub use sender::Sender;
pub use sent::Sent;
pub use toward::Toward;
