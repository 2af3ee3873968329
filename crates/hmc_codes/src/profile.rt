//! The two profiles of a link.

ghost use Rattle.std.specs.Prelude.{◌≡◌};

/// The layout of the tails of a link's packets, and the modulus of its retry pointers.
#[derive(Clone, Copy, PartialEq, Eq)]
pub enum Profile {
    /// Pointers of 9 bits.
    One,
    /// Pointers of 11 bits.
    Two,
}

impl Profile {
    ghost use Rattle.hmc_codes.specs.Profile.{modulus_of};

    /// The number at which retry pointers wrap: 512 or 2,048.
    pub fn modulus(self) -> u16
        ensures { result ≡ modulus_of self }
    {
        match self {
            Profile::One => 512,
            Profile::Two => 2048,
        }
    }
}
