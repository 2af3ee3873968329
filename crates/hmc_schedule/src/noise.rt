//! Noise.

use hmc_codes::Flit;

/// Each n-th landing that rounds make has a mask.
#[derive(Clone, Copy)]
pub struct Noise {
    /// The number n, from 1 to `MOST_STEPS`.
    pub every: u32,
    /// The mask.
    pub mask: Flit,
    /// The number of landings counted so far.
    pub count: u32,
}
