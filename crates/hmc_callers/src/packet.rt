//! A caller of `hmc_packet`.

ghost use Rattle.std.specs.Prelude.{◌≡◌, ◌<◌, ◌^◌, Some};

use hmc_codes::{Profile, Request};
use hmc_packet::{ask, read, request_of, spell};

/// Spells a request as the flits of its packet, reads the flits, and takes the request out again:
/// it is the same one. The tag is below 2,048.
pub fn round_trip(request: &Request, tag: u16, profile: Profile) -> Option<Request>
    requires { tag < 2 ^ 11 }
    ensures { result ≡ Some request.now }
{
    request.invariant();
    let packet = ask(request, tag, 0, false);
    let flits = spell(&packet, 0, profile);
    match read(flits.as_slice(), profile) {
        Ok(seen) => request_of(&seen.packet),
        Err(_) => None,
    }
}
