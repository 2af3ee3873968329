//! The tables of routes.

ghost use Rattle.std.specs.Prelude.{◌≡◌, ◌<◌, IfOk};
ghost use Rattle.hmc_routes.specs.Tables.{IsTableOf, AreTables, as_home, home_at, AreHomes};
ghost use Rattle.hmc_routes.specs.WellFormed.{IsGraph};

use crate::distances::distances_to;
use crate::neighbours::joined_to;
use crate::ports::ports_by;
use hmc_codes::{Graph, MOST_CUBES, MOST_HOSTS, Place};
use std::alloc::{AllocError, Global};

/// One entry for each cube that there can be.
pub const CUBES: usize = MOST_CUBES as usize;

/// One entry for each host that there can be.
pub const HOSTS: usize = MOST_HOSTS as usize;

/// The distances and ports of the routes to one cube, by the numbers of cubes.
#[derive(Clone, Copy)]
pub struct Table {
    pub distances: [u8; CUBES],
    pub ports: [Option<u8>; CUBES],
}

/// The port that a host is joined to.
#[derive(Clone, Copy)]
pub struct Home {
    pub cube: u8,
    pub port: u8,
}

// The routes to one cube.
fn table_of(graph: &Graph, goal: u8) -> Table
    requires graph { IsGraph graph.now }
    requires goal { goal < graph.now.cubes }
    ensures { IsTableOf graph.now goal result }
{
    let distances = distances_to(graph, goal);
    let ports = ports_by(graph, &distances);
    Table { distances, ports }
}

/// The routes to each cube.
pub fn tables_of(alloc: Global, graph: &Graph) -> Result<Vec<Table>, AllocError>
    requires { IsGraph graph.now }
    ensures { IfOk result (λ tables. AreTables graph.now tables.items) }
{
    let mut tables = Vec::new(alloc);
    'each: for goal in 0..graph.cubes() {
        tables.push(table_of(graph, goal))?;
    }
    Ok(tables)
}

// The port that the place is, if it is one.
fn as_home(place: Place) -> Option<Home>
    ensures { result ≡ as_home place }
{
    match place {
        Place::Host(_) => None,
        Place::Port { cube, port } => Some(Home { cube, port }),
    }
}

// The port that the host is joined to, if it is joined to one.
fn home_at(graph: &Graph, host: u8) -> Option<Home>
    ensures { result ≡ home_at graph.now host }
{
    let place = joined_to(graph.joins(), Place::Host(host))?;
    as_home(place)
}

/// The port of each host, by the hosts' numbers.
pub fn homes_of(graph: &Graph) -> [Option<Home>; HOSTS]
    ensures { AreHomes graph.now result }
{
    let mut homes = [None; HOSTS];
    'each: for host in 0..MOST_HOSTS {
        homes[usize::from(host)] = home_at(graph, host);
    }
    homes
}
