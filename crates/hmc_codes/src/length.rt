//! The lengths of packets with a command.

ghost use Rattle.std.specs.Prelude.{◌≡◌};

/// The lengths in flits that a command permits.
#[derive(Clone, Copy, PartialEq, Eq)]
pub enum Length {
    /// This number of flits, 1 to 17.
    Fixed(u8),
    /// What a read returns: 2 to 9 flits, or 17.
    Data,
}

impl Length {
    ghost use Rattle.hmc_codes.specs.Commands.{permits};

    /// Whether this number of flits is one of the lengths.
    pub fn permits(self, flits: u8) -> bool
        ensures { result ≡ permits self flits }
    {
        match self {
            Length::Fixed(n) => flits == n,
            Length::Data => (2 <= flits && flits <= 9) || flits == 17,
        }
    }
}
