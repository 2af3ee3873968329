//! Which fields a packet's header and tail have.

/// The layouts of packets: which fields header and tail have, and which are always zero. In every
/// flow packet the tag, the address, the cube and the number of a host link are zero.
#[derive(Clone, Copy, PartialEq, Eq)]
pub enum Layout {
    /// All 16 bytes are zero.
    Null,
    /// Forward pointer, sequence number and returned tokens are zero.
    Pret,
    /// No further field is zero.
    Tret,
    /// Sequence number and returned tokens are zero. The forward pointer gives one of two kinds.
    Irtry,
    /// A request: tag, address, cube, and the number of the host link that it came from.
    Ask,
    /// A response: tag, flag, the cube that made it, the number of the host link that it goes to,
    /// and an error number.
    Reply,
}
