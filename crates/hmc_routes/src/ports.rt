//! The ports through which routes leave cubes.

ghost use Rattle.std.specs.Prelude.{◌≡◌, ◌≤◌, ◌<◌, ◌+◌, ◌==◌, ℕ, false, None, slice_index_or};
ghost use Rattle.std.specs.List.{find};
ghost use Rattle.std.specs.Option.{option_map_or};
ghost use Rattle.hmc_codes.specs.Limits.{most_cubes, ports};
ghost use Rattle.hmc_codes.specs.Numbers.{upto};
ghost use Rattle.hmc_routes.specs.Neighbours.{neighbour};
ghost use Rattle.hmc_routes.specs.Tables.{nearer_by};

use crate::distances::distance_at;
use crate::neighbours::neighbour;
use crate::table::CUBES;
use hmc_codes::{Graph, PORTS};

// Whether the neighbour at the port is one hop nearer by these distances.
fn is_nearer(graph: &Graph, distances: &[u8], cube: u8, port: u8) -> bool
    ensures { result ≡ nearer_by graph.now (λ at. slice_index_or distances.now at 0) cube port }
{
    match neighbour(graph, cube, port) {
        Some(next) => {
            u16::from(distance_at(distances, next)) + 1 == u16::from(distance_at(distances, cube))
        }
        None => false,
    }
}

// The lowest port whose neighbour is one hop nearer.
fn nearer_port(graph: &Graph, distances: &[u8], cube: u8) -> Option<u8>
    ensures { result
        ≡ find (nearer_by graph.now (λ at. slice_index_or distances.now at 0) cube) (upto ports) }
{
    (0..PORTS).find(|port| is_nearer(graph, distances, cube, *port))
}

/// The port of each cube towards the goal of these distances.
pub fn ports_by(graph: &Graph, distances: &[u8]) -> [Option<u8>; CUBES]
    requires { graph.now.cubes ≤ most_cubes }
    ensures { (cube : ℕ) → cube < graph.now.cubes → slice_index_or result cube None
        ≡ find (nearer_by graph.now (λ at. slice_index_or distances.now at 0) cube) (upto ports) }
{
    let mut ports = [None; CUBES];
    'each: for cube in 0..graph.cubes() {
        ports[usize::from(cube)] = nearer_port(graph, distances, cube);
    }
    ports
}
