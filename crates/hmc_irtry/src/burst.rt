//! Bursts of IRTRYs.

ghost use Rattle.std.specs.Prelude.{◌≡◌, ◌-◌};
ghost use Rattle.hmc_irtry.specs.Burst.{whole_burst, empty_burst, is_empty, next_of};

use hmc_packet::Kind;
use std::marker::Model;

/// The IRTRYs of a burst.
const BURST: u8 = 32;

/// A burst of 32 IRTRYs of one kind. Contracts see the kind and how many are left.
#[derive(Drop)]
pub struct Burst {
    kind: Kind,
    left: u8,
}

impl Model for Burst {
    ghost use Rattle.hmc_irtry.specs.Burst.{BurstFields, IsBurst};

    ghost Value = { BurstFields };

    ghost view = { λ b. record { kind = b.kind; left = b.left } };

    ghost invariant = { λ b. IsBurst (record { kind = b.kind; left = b.left }) };
}

impl Burst {
    /// A burst of which nothing was sent.
    pub fn new(kind: Kind) -> Self
        ensures { result ≡ record { kind = kind; left = whole_burst } }
    {
        Burst { kind, left: BURST }
    }

    /// A burst of which all were sent.
    pub fn empty() -> Self
        ensures { result ≡ empty_burst }
    {
        Burst {
            kind: Kind::Clear,
            left: 0,
        }
    }

    /// Whether all were sent.
    pub fn is_empty(&self) -> bool
        ensures { result ≡ is_empty self.now }
    {
        self.left == 0
    }

    /// The next IRTRY's kind; `None` exactly after 32.
    pub fn next(&mut self) -> Option<Kind>
        ensures value { result ≡ next_of self.old.kind self.old.left }
        ensures left { self.new ≡ record self.old { left = self.old.left - 1 } }
    {
        if self.left == 0 {
            return None;
        }
        self.left -= 1;
        Some(self.kind)
    }
}
