//! Why flits are not a packet.

/// The first test that flits fail.
#[derive(Clone, Copy, PartialEq, Eq)]
pub enum Bad {
    /// The first flit's LNG isn't 1 to 17, or isn't the number of flits.
    Length,
    /// The table lacks the code, or it is 0, or the command doesn't allow the LNG.
    Command,
    /// A bit that has to be zero is not, or an IRTRY is neither a start nor a clear.
    Reserved,
    /// The check is wrong.
    Crc,
}
