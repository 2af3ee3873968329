//! An end of a link, the code.
//!
//! An [`End`] sends in one direction, and the other one lands at it. It has the output queue, the
//! sender and the line of the one, and the receiver and the buffer of the other; the buffer is of
//! any kind that takes packets in. hmc_ends has the definitions: what an end holds (`EndFields`),
//! which entries of a link it stands for (`EndStandsFor`), and what its calls answer and leave.
//!
//! A link (hmc_link) has two such ends. A checker of reports has a list of the ends of all links
//! (hmc_directions). [`token_row`] counts the tokens of a direction by the two ends of a link.
#![tactic(auto)]

mod arrival;
mod end;
mod row;

pub use arrival::stored_packet;
pub use end::End;
pub use row::token_row;
