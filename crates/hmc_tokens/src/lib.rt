//! Intakes, which take packets in at one end and out at the other, and the move from one to
//! another.
//!
//! An intake is a list of packets, the front first, a size, and the cost of each packet. The costs
//! of its packets never sum to more than the size, and no call changes the size or a cost. The
//! layers above use only these laws of [`Intake`].
//!
//! [`Queue`] is the intake whose packets cost 1 each, [`FlitBuffer`] the one whose packets cost
//! their flits: its size is the number of tokens that its end of a link advertises.
#![tactic(auto)]

mod account;
mod flit_buffer;
mod intake;
mod moving;
mod packets;
mod queue;
mod ring;

pub use account::{Account, rtc_for, rtc_tokens};
pub use flit_buffer::FlitBuffer;
pub use intake::Intake;
pub use moving::{Moved, Shift, move_one, shift_one};
pub use queue::Queue;
pub use ring::append;
