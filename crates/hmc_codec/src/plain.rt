//! Packets as plain numbers.

/// A packet as plain numbers, with the return pointer that it is sent with. A field that a packet
/// of its command lacks is 0.
#[repr(C)]
#[derive(Drop)]
pub struct PlainPacket {
    /// Below 2^34.
    pub address: u64,
    /// The bytes of `payload` that count: as many as the command has.
    pub length: u32,
    /// Below 2,048.
    pub tag: u16,
    /// The forward retry pointer: below 512, and in profile two below 2,048.
    pub frp: u16,
    /// The return retry pointer: below 512, and in profile two below 2,048; 0 of a NULL.
    pub rrp: u16,
    /// The code of its command.
    pub command: u8,
    /// Below 8.
    pub cube: u8,
    /// The host link that a request came from or that a response goes to, below 8.
    pub slid: u8,
    /// The error number of a response: below 128, and in profile two below 8.
    pub errstat: u8,
    /// The code of the tokens that are returned, below 8.
    pub rtc: u8,
    /// The sequence number, below 8.
    pub seq: u8,
    /// Of a response: whether an atomic command's condition held.
    pub flag: bool,
    /// Whether its check is the inverse of the right one.
    pub poisoned: bool,
    /// The payload.
    pub payload: [u8; 256],
}
