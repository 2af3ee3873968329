//! Routes between the cubes and hosts of a graph.
//!
//! A hop leads from a cube to a neighbour, and the distance of two cubes is the number of hops of a
//! shortest walk (`specs/Distance.antt`). From a cube towards another the route takes the lowest
//! port whose neighbour is one hop nearer; towards a host it goes to the host's cube, and there to
//! the host's port (`specs/Ports.antt`, `specs/Route.antt`). [`Routes::build`] makes tables of
//! both, or names the first two cubes without a walk; the other calls look up. Contracts see
//! [`Routes`] as the graph that they are of.
#![tactic(auto)]

mod distances;
mod fault;
mod neighbours;
mod parted;
mod ports;
mod routes;
mod table;

pub use fault::RouteFault;
pub use hmc_codes::{Graph, Join, Place};
pub use routes::Routes;
