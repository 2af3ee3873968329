//! What a case states of a cube and of a link.

use hmc_codes::{Join, LinkSetup, Shape};
use std::marker::Model;

/// A cube of a case.
#[derive(Clone, Copy)]
pub struct CubeSetup {
    /// The shape of its memory.
    pub shape: Shape,
    /// Packets that each of its queues holds; 1 to 64.
    pub queue: u8,
}

impl Model for CubeSetup {
    ghost use Rattle.hmc_case.specs.Setup.{CubeSetupFields, IsCubeSetup};

    ghost Value = { CubeSetupFields };

    ghost view = { λ s. record { shape = s.shape; queue = s.queue } };

    ghost invariant = { λ s. IsCubeSetup (record { shape = s.shape; queue = s.queue }) };

    ghost inverse = { λ s. record { shape = s.shape; queue = s.queue } };
}

/// A link of a case.
#[derive(Clone, Copy)]
pub struct LinkRow {
    /// Where the link ends.
    pub join: Join,
    /// The sizes of both ends.
    pub setup: LinkSetup,
}
