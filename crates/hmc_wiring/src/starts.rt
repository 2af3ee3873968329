//! The directions that start at hosts and at the ports of cubes.

ghost use Rattle.std.specs.Prelude.{◌≡◌, ◌≤◌, length};
ghost use Rattle.hmc_codes.specs.Limits.{most_links};
ghost use Rattle.hmc_routes.specs.Directions.{direction_from};
ghost use Rattle.hmc_wiring.specs.Wiring.{AreHostStarts, ArePortStarts};

use hmc_codes::{Join, MOST_CUBES, MOST_HOSTS, PORTS, Place};

/// One entry for each host that there can be.
pub const HOSTS: usize = MOST_HOSTS as usize;

/// One entry for each port of each cube that there can be.
pub const PORT_PLACES: usize = MOST_CUBES as usize * PORTS as usize;

// The first direction that starts at a place, if one does.
fn direction_from(joins: &[Join], place: Place) -> Option<u8>
    requires { length joins.now ≤ most_links }
    ensures { result ≡ direction_from joins.now place }
{
    for (i, join) in joins.iter().enumerate() {
        if join.a.is(place) {
            return Some(2 * i as u8);
        }
        if join.b.is(place) {
            return Some(2 * i as u8 + 1);
        }
    }
    None
}

/// The direction that starts at each host, by the hosts' numbers.
pub fn host_starts(joins: &[Join]) -> [Option<u8>; HOSTS]
    requires { length joins.now ≤ most_links }
    ensures { AreHostStarts joins.now result }
{
    let mut starts = [None; HOSTS];
    'each: for host in 0..MOST_HOSTS {
        starts[usize::from(host)] = direction_from(joins, Place::Host(host));
    }
    starts
}

/// The direction that starts at each port, by the place of the port: four times its cube's number,
/// and its own.
pub fn port_starts(joins: &[Join]) -> [Option<u8>; PORT_PLACES]
    requires { length joins.now ≤ most_links }
    ensures { ArePortStarts joins.now result }
{
    let mut starts = [None; PORT_PLACES];
    'each: for place in 0..MOST_CUBES * PORTS {
        let port = Place::Port {
            cube: place / PORTS,
            port: place % PORTS,
        };
        starts[usize::from(place)] = direction_from(joins, port);
    }
    starts
}
