//! The ends of links.

ghost use Rattle.std.specs.Prelude.{◌≡◌};

/// An end of a link.
#[derive(Clone, Copy, PartialEq, Eq)]
pub enum Place {
    /// A host, by its number, below 8.
    Host(u8),
    /// A port of a cube.
    Port {
        /// The cube's number, below 8.
        cube: u8,
        /// The port's number, below 4.
        port: u8,
    },
}

impl Place {
    ghost use Rattle.hmc_codes.specs.Places.{same_place};

    /// Whether the two are one host or one port.
    pub fn is(self, other: Place) -> bool
        ensures { result ≡ same_place self other }
    {
        match (self, other) {
            (Place::Host(host), Place::Host(other)) => host == other,
            (
                Place::Port { cube, port },
                Place::Port {
                    cube: other,
                    port: other_port,
                },
            ) => cube == other && port == other_port,
            _ => false,
        }
    }
}

/// What a link joins. Its direction forth goes from `a` to `b`, its direction back from `b` to `a`.
#[derive(Clone, Copy, PartialEq, Eq)]
pub struct Join {
    /// One end.
    pub a: Place,
    /// The other end.
    pub b: Place,
}
