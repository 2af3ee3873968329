//! Which requests are the same.

ghost use Rattle.std.specs.Prelude.{◌≡◌};
ghost use Rattle.hmc_judge.specs.Walk.{same_request, same_tags, same_waiting};

use hmc_codes::Request;
use hmc_search::Waiting;

// Whether two tags are the same, or both are none.
fn same_tags(a: Option<u16>, b: Option<u16>) -> bool
    ensures { result ≡ same_tags a b }
{
    match (a, b) {
        (None, None) => true,
        (Some(a), Some(b)) => a == b,
        _ => false,
    }
}

// Whether two requests are the same.
fn same_request(a: &Request, b: &Request) -> bool
    ensures { result ≡ same_request a.now b.now }
{
    a.command.code() == b.command.code()
        && (a.cube == b.cube
            && (a.address == b.address && a.payload.as_slice() == b.payload.as_slice()))
}

/// Whether two requests are the same, of the same host and under the same tag.
pub fn same_waiting(a: &Waiting, b: &Waiting) -> bool
    ensures { result ≡ same_waiting a.now b.now }
{
    a.host == b.host && (same_tags(a.tag, b.tag) && same_request(&a.request, &b.request))
}
