//! Packets as plain numbers, for callers without the types of `hmc_packet`.
//!
//! A [`PlainPacket`] is a packet and the return pointer that it is sent with, in the layout that C
//! has. [`read_plain`] shows what flits spell, and [`spell_plain`] spells what its numbers name, if
//! they are a packet. specs/Plain has both, and `laws` that one undoes the other.
#![tactic(auto)]

mod laws;
mod plain;
mod reading;
mod spelling;

pub use laws::plain_packets_come_back;
pub use plain::PlainPacket;
pub use reading::read_plain;
pub use spelling::spell_plain;
