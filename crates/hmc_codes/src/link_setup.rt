//! The sizes of a link.

ghost use Rattle.std.specs.Prelude.{◌≡◌};
ghost use Rattle.hmc_codes.specs.Link.{IsLinkSetup};

use crate::Profile;
use std::marker::Model;

/// The sizes and the profile of a link, the same at both of its ends.
#[derive(Clone, Copy, PartialEq, Eq)]
pub struct LinkSetup {
    /// Flits that a line holds; 1 to 64.
    pub line: u8,
    /// Tokens that an end advertises: the flits of its receiving buffer; 17 to 1,024.
    pub tokens: u16,
    /// Flits of a retry buffer; 17 to half of the profile's modulus, 256 or 1,024.
    pub retry: u16,
    /// Packets that an output queue holds; 1 to 64.
    pub output: u8,
    /// The profile of both directions.
    pub profile: Profile,
}

impl Model for LinkSetup {
    ghost use Rattle.hmc_codes.specs.Link.{LinkFields, IsLinkSetup};

    ghost Value = { LinkFields };

    ghost view = { λ s. record {
      line = s.line;
      tokens = s.tokens;
      retry = s.retry;
      output = s.output;
      profile = s.profile;
    } };

    ghost invariant = { λ s. IsLinkSetup (view s) };

    ghost inverse = { λ s. record {
      line = s.line;
      tokens = s.tokens;
      retry = s.retry;
      output = s.output;
      profile = s.profile;
    } };
}

impl LinkSetup {
    /// Does nothing. Its contract is what every setup keeps.
    pub fn invariant(&self)
        ensures { IsLinkSetup self.now }
    {
        let _ = &self.line;
    }
}
