//! The two kinds of IRTRY.

ghost use Rattle.std.specs.Prelude.{◌≡◌};

/// What an IRTRY asks of the end that it comes to.
#[derive(Clone, Copy, PartialEq, Eq)]
pub enum Kind {
    /// Send again what isn't acknowledged.
    Start,
    /// Begin anew: packets follow.
    Clear,
}

impl Kind {
    ghost use Rattle.hmc_packet.specs.Irtry.{kind_of, kind_pointer};

    /// The kind of an IRTRY with this forward pointer: 1 says a Start, 2 a Clear.
    pub fn of_pointer(frp: u16) -> Self
        ensures { result ≡ kind_of frp }
    {
        if frp == 1 { Kind::Start } else { Kind::Clear }
    }

    /// The forward pointer that says this kind.
    pub fn pointer(self) -> u16
        ensures { result ≡ kind_pointer self }
    {
        match self {
            Kind::Start => 1,
            Kind::Clear => 2,
        }
    }
}
