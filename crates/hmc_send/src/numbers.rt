//! The numbers of a packet.

/// The numbers that a direction gives to a packet.
#[derive(Clone, Copy)]
pub struct Numbers {
    /// The flits up to and including the packet, modulo the profile's number.
    pub frp: u16,
    /// The packets up to and including it, modulo 8.
    pub seq: u8,
    /// The code of the tokens that it returns, below 8.
    pub rtc: u8,
}
