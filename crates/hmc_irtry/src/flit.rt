//! IRTRYs as flits.

ghost use Rattle.std.specs.Prelude.{◌≡◌, ◌<◌};
ghost use Rattle.hmc_codes.specs.Profile.{modulus_of};
ghost use Rattle.hmc_packet.specs.Irtry.{irtry_flit, irtry_in};

use hmc_codes::{Flit, Profile};
use hmc_packet::{Kind, irtry_flit, irtry_in};

/// The IRTRY of a kind with this return pointer, which is below the profile's modulus.
pub fn irtry(kind: Kind, rrp: u16, profile: Profile) -> Flit
    requires { rrp < modulus_of profile }
    ensures { result ≡ irtry_flit profile kind rrp }
{
    irtry_flit(kind, rrp, profile)
}

/// The kind and the return pointer of a flit that alone reads as an IRTRY; `None` exactly where it
/// doesn't.
pub fn irtry_of(flit: &Flit, profile: Profile) -> Option<(Kind, u16)>
    ensures { result ≡ irtry_in profile flit.now }
{
    irtry_in(flit, profile)
}
