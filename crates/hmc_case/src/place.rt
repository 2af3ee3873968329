//! Where links end.

ghost use Rattle.std.specs.Prelude.{◌≡◌, ◌<◌, [], ◌∷◌, true, false, IsTrue, IfSome, IfOk, OnOk};
ghost use Rattle.hmc_codes.specs.Places.{is_host};
ghost use Rattle.hmc_routes.specs.WellFormed.{is_there, may_be_joined};
ghost use Rattle.hmc_case.specs.Places.{digit_of, place_of, is_same_cube, is_taken, ends_of, may_join};

use crate::fault::refuse_unless;
use crate::{CaseKind, LinkRow};
use hmc_codes::{Join, MOST_CUBES, MOST_HOSTS, PORTS, Place};

// The digit that the byte is, if it is below the limit.
fn digit_of(limit: u8, byte: u8) -> Option<u8>
    requires { limit < 10 }
    ensures value { result ≡ digit_of limit byte }
    ensures small { IfSome result (λ digit. digit < limit) }
{
    if b'0' <= byte && byte < b'0' + limit {
        Some(byte - b'0')
    } else {
        None
    }
}

fn host_of_digit(letter: u8, host: u8) -> Option<Place>
    ensures { result ≡ place_of (letter ∷ host ∷ []) }
{
    if letter != b'h' {
        return None;
    }
    let host = digit_of(MOST_HOSTS, host)?;
    Some(Place::Host(host))
}

fn port_of_digits(letter: u8, cube: u8, dot: u8, port: u8) -> Option<Place>
    ensures { result ≡ place_of (letter ∷ cube ∷ dot ∷ port ∷ []) }
{
    if letter != b'c' || dot != b'.' {
        return None;
    }
    let cube = digit_of(MOST_CUBES, cube)?;
    let port = digit_of(PORTS, port)?;
    Some(Place::Port { cube, port })
}

// The host or the port with this name.
fn place_of(text: &str) -> Option<Place>
    ensures { result ≡ place_of text.now }
{
    match text.as_bytes() {
        [letter, host] => host_of_digit(*letter, *host),
        [letter, cube, dot, port] => port_of_digits(*letter, *cube, *dot, *port),
        _ => None,
    }
}

fn is_host(place: Place) -> bool
    ensures { result ≡ is_host place }
{
    matches!(place, Place::Host(_))
}

// Whether there is such a host, or such a port of one of this many cubes.
fn is_there(cubes: u8, place: Place) -> bool
    ensures { result ≡ is_there cubes place }
{
    match place {
        Place::Host(host) => host < MOST_HOSTS,
        Place::Port { cube, port } => cube < cubes && port < PORTS,
    }
}

// Whether both are ports of one cube.
fn is_same_cube(place: Place, other: Place) -> bool
    ensures { result ≡ is_same_cube place other }
{
    match (place, other) {
        (Place::Port { cube, .. }, Place::Port { cube: other, .. }) => cube == other,
        _ => false,
    }
}

/// Whether one of the links ends there.
pub fn is_taken(links: &[LinkRow], place: Place) -> bool
    ensures { result ≡ is_taken links.now place }
{
    links
        .iter()
        .any(|link| link.join.a.is(place) || link.join.b.is(place))
}

/// The ends with these names, a before b.
#[tactic(auto, unfolding(crate::specs::Places::ends_of))]
pub fn ends_of(cubes: u8, a: &str, b: &str) -> Result<Join, CaseKind>
    ensures value { result ≡ ends_of cubes a.now b.now }
    ensures a { IfOk result (λ join. is_there cubes join.a ≡ true) }
    ensures b { IfOk result (λ join. is_there cubes join.b ≡ true) }
{
    let Some(first) = place_of(a) else {
        return Err(CaseKind::Endpoint);
    };
    refuse_unless(is_there(cubes, first), CaseKind::NoCube)?;
    let Some(second) = place_of(b) else {
        return Err(CaseKind::Endpoint);
    };
    refuse_unless(is_there(cubes, second), CaseKind::NoCube)?;
    Ok(Join {
        a: first,
        b: second,
    })
}

/// A link may not join two hosts, a cube to itself, or an end of an earlier link.
#[tactic(auto, unfolding(crate::specs::Places::may_join))]
pub fn may_join(links: &[LinkRow], join: Join) -> Result<(), CaseKind>
    ensures value { result ≡ may_join links.now join }
    ensures apart { OnOk result (may_be_joined join.a join.b ≡ true) }
    ensures a_free { OnOk result (is_taken links.now join.a ≡ false) }
    ensures b_free { OnOk result (is_taken links.now join.b ≡ false) }
{
    let hosts = is_host(join.a) && is_host(join.b);
    refuse_unless(!hosts, CaseKind::Hosts)?;
    refuse_unless(!is_same_cube(join.a, join.b), CaseKind::SelfJoined)?;
    let taken = is_taken(links, join.a) || is_taken(links, join.b);
    refuse_unless(!taken, CaseKind::Taken)
}
