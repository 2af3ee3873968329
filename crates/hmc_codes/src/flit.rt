//! Flits.

/// The unit of transfer on a link: 16 bytes.
pub type Flit = [u8; 16];

/// Sixteen zero bytes: a NULL on a link, and as the mask of a landing the one that changes nothing.
pub const ZERO_FLIT: Flit = [0; 16];
