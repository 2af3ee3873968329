//! What is joined to what.

ghost use Rattle.std.specs.Prelude.{◌≡◌};
ghost use Rattle.std.specs.List.{find};
ghost use Rattle.hmc_routes.specs.Neighbours.{ends_at, far_end, joined_to, cube_number, neighbour};

use hmc_codes::{Graph, Join, Place};

fn ends_at(place: Place, join: Join) -> bool
    ensures { result ≡ ends_at place join }
{
    join.a.is(place) || join.b.is(place)
}

// The other end of a join that ends at the place.
fn far_end(place: Place, join: Join) -> Place
    ensures { result ≡ far_end place join }
{
    if join.a.is(place) { join.b } else { join.a }
}

// The join that ends at the place, if one does.
fn join_at(joins: &[Join], place: Place) -> Option<Join>
    ensures { result ≡ find (ends_at place) joins.now }
{
    joins.iter().copied().find(|join| ends_at(place, *join))
}

/// What is joined to the place, if anything is.
#[tactic(auto, unfolding(crate::specs::Neighbours::joined_to))]
pub fn joined_to(joins: &[Join], place: Place) -> Option<Place>
    ensures { result ≡ joined_to joins.now place }
{
    let join = join_at(joins, place)?;
    Some(far_end(place, join))
}

// The cube whose port the place is, if it is one.
fn cube_number(place: Place) -> Option<u8>
    ensures { result ≡ cube_number place }
{
    match place {
        Place::Host(_) => None,
        Place::Port { cube, .. } => Some(cube),
    }
}

/// The cube at the other end of what a port is joined to, if that is a cube.
pub fn neighbour(graph: &Graph, cube: u8, port: u8) -> Option<u8>
    ensures { result ≡ neighbour graph.now cube port }
{
    let place = joined_to(graph.joins(), Place::Port { cube, port })?;
    cube_number(place)
}
