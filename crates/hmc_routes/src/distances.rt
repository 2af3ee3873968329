//! How far cubes are apart.

ghost use Rattle.std.specs.Prelude.{◌≡◌, ◌≤◌, ◌<◌, ◌+◌, ◌||◌, ℕ, false, cond, slice_index_or};
ghost use Rattle.std.specs.Option.{option_map_or};
ghost use Rattle.hmc_codes.specs.Limits.{most_cubes};
ghost use Rattle.hmc_routes.specs.Distance.{distance};
ghost use Rattle.hmc_routes.specs.Neighbours.{neighbour, some_neighbour};
ghost use Rattle.hmc_routes.specs.WellFormed.{IsGraph};

use crate::neighbours::neighbour;
use crate::table::CUBES;
use hmc_codes::{Graph, PORTS};

fn is_set(flags: &[bool], at: u8) -> bool
    ensures { result ≡ slice_index_or flags.now at false }
{
    match flags.get(usize::from(at)) {
        Some(flag) => *flag,
        None => false,
    }
}

// Whether the port leads to a cube that is near.
fn leads_near(graph: &Graph, near: &[bool], cube: u8, port: u8) -> bool
    ensures { result ≡ option_map_or (λ next. slice_index_or near.now next false)
        (neighbour graph.now cube port) false }
{
    match neighbour(graph, cube, port) {
        Some(next) => is_set(near, next),
        None => false,
    }
}

// Whether some neighbour of the cube is near.
fn has_near_neighbour(graph: &Graph, near: &[bool], cube: u8) -> bool
    ensures { result ≡ some_neighbour graph.now (λ next. slice_index_or near.now next false) cube }
{
    (0..PORTS).any(|port| leads_near(graph, near, cube, port))
}

// Whether the cube is near, or one hop from a cube that is.
fn is_near_after(graph: &Graph, near: &[bool], cube: u8) -> bool
    ensures { result ≡ (slice_index_or near.now cube false
        || some_neighbour graph.now (λ next. slice_index_or near.now next false) cube) }
{
    is_set(near, cube) || has_near_neighbour(graph, near, cube)
}

// The cubes that are near after one hop more.
fn one_hop_more(graph: &Graph, near: &[bool]) -> [bool; CUBES]
    requires { graph.now.cubes ≤ most_cubes }
    ensures { (cube : ℕ) → cube < graph.now.cubes → slice_index_or result cube false
        ≡ (slice_index_or near.now cube false
        || some_neighbour graph.now (λ next. slice_index_or near.now next false) cube) }
{
    let mut further = [false; CUBES];
    'each: for cube in 0..graph.cubes() {
        further[usize::from(cube)] = is_near_after(graph, near, cube);
    }
    further
}

// The distance of a cube after one number of hops more: one more unless that many are enough.
fn count_hop(near: &[bool], distances: &[u8], cube: u8) -> u8
    requires { slice_index_or distances.now cube 0 < most_cubes }
    ensures { result ≡ slice_index_or distances.now cube 0
        + cond (slice_index_or near.now cube false) 0 1 }
{
    let distance = distance_at(distances, cube);
    if is_set(near, cube) {
        distance
    } else {
        distance + 1
    }
}

// The distances after one number of hops more.
fn count_hops(graph: &Graph, near: &[bool], distances: &[u8]) -> [u8; CUBES]
    requires few { graph.now.cubes ≤ most_cubes }
    requires below { (cube : ℕ) → cube < graph.now.cubes
        → slice_index_or distances.now cube 0 < most_cubes }
    ensures { (cube : ℕ) → cube < graph.now.cubes → slice_index_or result cube 0
        ≡ slice_index_or distances.now cube 0 + cond (slice_index_or near.now cube false) 0 1 }
{
    let mut counted = [0; CUBES];
    'each: for cube in 0..graph.cubes() {
        counted[usize::from(cube)] = count_hop(near, distances, cube);
    }
    counted
}

/// The distance of a cube in a list of distances; 0 after its end.
pub fn distance_at(distances: &[u8], cube: u8) -> u8
    ensures { result ≡ slice_index_or distances.now cube 0 }
{
    match distances.get(usize::from(cube)) {
        Some(distance) => *distance,
        None => 0,
    }
}

/// The hops of a shortest walk from each cube to the goal: the number of cubes where there is none.
#[tactic(auto, unfolding(crate::specs::Distance::distance, crate::specs::Distance::within))]
pub fn distances_to(graph: &Graph, goal: u8) -> [u8; CUBES]
    requires graph { IsGraph graph.now }
    requires goal { goal < graph.now.cubes }
    ensures { (cube : ℕ) → cube < graph.now.cubes
        → slice_index_or result cube 0 ≡ distance graph.now goal cube }
{
    let mut near = [false; CUBES];
    near[usize::from(goal)] = true;
    let mut distances = [0; CUBES];
    'hops: for _hops in 0..graph.cubes() {
        distances = count_hops(graph, &near, &distances);
        near = one_hop_more(graph, &near);
    }
    distances
}
