//! Routes.

ghost use Rattle.std.specs.Prelude.{◌≡◌, ◌≢◌, ◌≤◌, ◌<◌, ◌==◌, ◌↔◌, if◌then◌else◌, ℕ, true, Some, None, Err, IfOk, OnOk, IfSome, IsNone};
ghost use Rattle.hmc_codes.specs.Limits.{ports};
ghost use Rattle.hmc_routes.specs.Distance.{within, distance, certifies};
ghost use Rattle.hmc_routes.specs.Parted.{parted, InOnePart};
ghost use Rattle.hmc_routes.specs.Ports.{port_to_cube, port_to_host, is_nearer};
ghost use Rattle.hmc_routes.specs.WellFormed.{IsGraph, is_host_of};
ghost use Rattle.hmc_routes.specs.declared.fault.RouteFault.TheVariants.{Parted};

use crate::RouteFault;
use crate::distances::distance_at;
use crate::parted::parted;
use crate::table::{HOSTS, Home, Table, homes_of, tables_of};
use hmc_codes::Graph;
use std::alloc::{AllocError, Global};
use std::marker::Model;

/// The routes of a graph. Contracts see them as the graph.
#[derive(Drop)]
pub struct Routes {
    graph: Graph,
    tables: Vec<Table>,
    homes: [Option<Home>; HOSTS],
}

impl Model for Routes {
    ghost use Rattle.std.specs.Prelude.{◌≡◌};
    ghost use Rattle.hmc_codes.specs.Graph.{GraphFields};
    ghost use Rattle.hmc_routes.specs.Parted.{InOnePart};
    ghost use Rattle.hmc_routes.specs.Tables.{IsKept};
    ghost use Rattle.hmc_routes.specs.WellFormed.{IsGraph};

    ghost Value = { GraphFields };

    ghost view = { λ r. r.graph };

    ghost invariant = { λ r. IsKept r.graph r.tables.items r.homes };
}

// The same graph again.
fn copy_of(alloc: Global, graph: &Graph) -> Result<Graph, AllocError>
    ensures { IfOk result (λ copy. copy ≡ graph.now) }
{
    let joins = Vec::from_slice(alloc, graph.joins())?;
    Ok(Graph::new(graph.cubes(), joins))
}

impl Routes {
    /// Makes the routes of a graph with 1 to 8 cubes, in which every end exists and is joined once,
    /// no join has two hosts or two ports of one cube, and hosts are numbered from 0 without a gap.
    /// `Parted` names the first two cubes, in order of `from` and then of `to`, without a walk.
    pub fn build(alloc: Global, graph: &Graph) -> Result<Routes, RouteFault>
        requires { IsGraph graph.now }
        ensures value { IfOk result (λ routes. routes ≡ graph.now) }

        // Where there are routes all cubes are reached.
        ensures one_part { OnOk result (InOnePart graph.now) }
        ensures unparted { OnOk result (parted graph.now ≡ None) }

        // The fault is the first pair without a walk, of however many hops.
        ensures first_pair { (from to : ℕ) →
            result ≡ Err (Parted from to) → parted graph.now ≡ Some (from, to) }
        ensures no_walk { (from to hops : ℕ) →
            result ≡ Err (Parted from to) → within graph.now to hops from ≢ true }
    {
        let tables = tables_of(alloc, graph)?;
        if let Some((from, to)) = parted(graph, &tables) {
            return Err(RouteFault::Parted { from, to });
        }
        let homes = homes_of(graph);
        let graph = copy_of(alloc, graph)?;
        Ok(Routes {
            graph,
            tables,
            homes,
        })
    }

    /// Nothing is done: what the graph of routes keeps is the contract. The certificate of the
    /// distances says that they are 0 at the goal, and elsewhere one more than the least over the
    /// neighbours; no other numbers have it.
    pub fn invariant(&self)
        ensures graph { IsGraph self.now }
        ensures one_part { InOnePart self.now }
        ensures certificate { (goal : ℕ) → goal < self.now.cubes →
            certifies self.now goal (distance self.now goal) ≡ true }
        ensures only { (goal cube : ℕ) (hops : ℕ → ℕ) →
            goal < self.now.cubes → cube < self.now.cubes →
            certifies self.now goal hops ≡ true → hops cube ≡ distance self.now goal cube }
    {
        let _ = &self.tables;
    }

    /// The port of the cube `at` through which the route to `cube` leaves: the lowest whose
    /// neighbour is one hop nearer. None exactly at the cube itself.
    #[inline(always)]
    pub fn to_cube(&self, at: u8, cube: u8) -> Option<u8>
        requires at { at < self.now.cubes }
        requires cube { cube < self.now.cubes }
        ensures exact { result ≡ port_to_cube self.now cube at }
        ensures none { IsNone result ↔ (at ≡ cube) }
        ensures real { IfSome result (λ port. port < ports) }
        ensures nearer { IfSome result (λ port. is_nearer self.now cube at port ≡ true) }
    {
        let table = &self.tables[usize::from(cube)];
        table.ports[usize::from(at)]
    }

    // The port that the host is joined to.
    fn home(&self, host: u8) -> Home
        requires { is_host_of self.now host ≡ true }
        ensures cube { result.cube < self.now.cubes }
        ensures port { result.port < ports }
        ensures towards { (at : ℕ) → port_to_host self.now host at
            ≡ (if at == result.cube then Some result.port
            else port_to_cube self.now result.cube at) }
    {
        self.homes[usize::from(host)].unwrap()
    }

    /// The port of the cube `at` through which the route to the host leaves: at the host's own cube
    /// the port that it is joined to, elsewhere the one towards its cube.
    #[inline(always)]
    pub fn to_host(&self, at: u8, host: u8) -> u8
        requires at { at < self.now.cubes }
        requires host { is_host_of self.now host ≡ true }
        ensures exact { port_to_host self.now host at ≡ Some result }
        ensures real { result < ports }
    {
        let home = self.home(host);
        if at == home.cube {
            return home.port;
        }
        self.to_cube(at, home.cube).unwrap()
    }

    /// The hops of a shortest walk from the cube `at` to `cube`: at most 7.
    pub fn distance(&self, at: u8, cube: u8) -> u8
        requires at { at < self.now.cubes }
        requires cube { cube < self.now.cubes }
        ensures exact { result ≡ distance self.now cube at }

        // Some walk has so many hops, and none has fewer.
        ensures walk { within self.now cube result at ≡ true }
        ensures shortest { (hops : ℕ) → within self.now cube hops at ≡ true → result ≤ hops }
        ensures few { result < self.now.cubes }
    {
        let table = self.tables[usize::from(cube)];
        distance_at(&table.distances, at)
    }
}
