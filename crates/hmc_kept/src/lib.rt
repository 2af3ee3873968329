//! What those keep of a journal who take its steps, by direction.
//!
//! An entry leaves of each part what `specs/After.antt` says. [`Pipes`] has the packets that are
//! forwarded before they have come whole; `specs/Shown.antt` has what a step may rely on in every
//! view of a lawful journal, and `specs/LinkAnswers.antt` which entries the answers of a link are
//! ([`note_sent`], [`note_landed`]). [`Parts`] is what they have in common before the first step;
//! [`may_go`] and [`pipe_of`] are for the step through, [`counts_of_host`] for the final lines.
//! Nothing here says how links and cubes are kept.
//!
//! The lemmas say which entry a step makes, and what it leaves, by a view that keeps the laws
//! (`KeepsLaws`) alone: of what hosts give and take (`proofs/HostSteps.antt`), of packets at ports
//! (`Ways`, `Seen`) and inside cubes (`InCubes`, `Units`), of links (`Called`, `Sending`,
//! `Landing`, `Whole`, `Forwarded`), of packets that are forwarded (`Found`, `Throughs`), at the
//! beginning and at the end (`Opening`, `Stillness`), and of what the counts have to know
//! (`Telling`). So each layer above that takes steps cites them for its own state.
#![tactic(auto)]

mod answers;
mod forwarding;
mod hosts;
mod parts;
mod pipes;

pub use answers::{goes_on, note_landed, note_sent};
pub use forwarding::{may_go, pipe_of};
pub use hosts::counts_of_host;
pub use parts::Parts;
pub use pipes::Pipes;
