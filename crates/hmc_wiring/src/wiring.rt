//! Where directions start and where packets go.

ghost use Rattle.std.specs.Prelude.{◌≡◌, ◌<◌, ◌*◌, ◌↔◌, IfOk, IsTrue, IfSome, Some, length, map};
ghost use Rattle.hmc_codes.specs.declared.place.Place.TheVariants as places;
ghost use Rattle.hmc_crossbar.specs.To.{HasWay, where_to};
ghost use Rattle.hmc_journal.specs.Links.{direction_to};
ghost use Rattle.hmc_journal.specs.Routes.{port_towards};
ghost use Rattle.hmc_journal.specs.Setup.{Topology, cubes_in, hosts_in, graph_of, shape_of, direction_from};
ghost use Rattle.hmc_journal.specs.Directions.{profile_of};
ghost use Rattle.hmc_journal.specs.ThroughSteps.{onward_port};
ghost use Rattle.hmc_routes.specs.Directions.{other};
ghost use Rattle.hmc_routes.specs.Parted.{InOnePart};
ghost use Rattle.hmc_routes.specs.WellFormed.{IsGraph};
ghost use Rattle.hmc_wiring.specs.Ready.{IsPortIn};
ghost use Rattle.hmc_wiring.specs.Wiring.{IsLaidOut, towards_cube, towards_host};

use crate::starts::{HOSTS, PORT_PLACES, host_starts, port_starts};
use hmc_case::{CubeSetup, LinkRow};
use hmc_codes::{Family, Graph, Join, Memory, PORTS, Profile, Shape};
use hmc_crossbar::{To, way_of};
use hmc_packet::{Head, Packet};
use hmc_routes::{RouteFault, Routes};
use std::alloc::Global;
use std::marker::Model;

/// The cubes and links of a network, the direction that starts at each place, and the routes.
/// Contracts see the topology. After `build`, each call reads tables by index, and searches none.
#[derive(Drop)]
pub struct Wiring {
    cubes: Vec<CubeSetup>,
    links: Vec<LinkRow>,
    hosts: [Option<u8>; HOSTS],
    ports: [Option<u8>; PORT_PLACES],
    routes: Routes,
}

impl Model for Wiring {
    ghost use Rattle.hmc_journal.specs.Setup.{Topology};
    ghost use Rattle.hmc_wiring.specs.Wiring.{IsWiring};

    ghost Value = { Topology };

    ghost view = { λ w. record { cubes = w.cubes.items; links = w.links.items } };

    ghost invariant = { λ w. IsWiring (view w) w.hosts w.ports w.routes };
}

impl Wiring {
    /// The wiring of these cubes and links. `Memory` if out of memory.
    pub fn build(alloc: Global, cubes: &[CubeSetup], links: &[LinkRow]) -> Result<Self, Memory>
        requires { IsLaidOut (record { cubes = cubes.now; links = links.now }) }
        ensures { IfOk result (λ wiring.
            wiring ≡ record { cubes = cubes.now; links = links.now }) }
    {
        let joins = joins_of(alloc, links)?;
        let hosts = host_starts(&joins);
        let ports = port_starts(&joins);
        let graph = Graph::new(cubes.len() as u8, joins);
        let routes = routes_of(alloc, &graph)?;
        let cubes = Vec::from_slice(alloc, cubes)?;
        let links = Vec::from_slice(alloc, links)?;
        Ok(Wiring {
            cubes,
            links,
            hosts,
            ports,
            routes,
        })
    }

    /// The direction that starts at a host.
    pub fn from_host(&self, host: u8) -> u8
        requires { host < hosts_in self.now }
        ensures from { direction_from self.now (places.Host host) ≡ Some result }
        ensures there { result < 2 * length self.now.links }
    {
        self.hosts[usize::from(host)].unwrap()
    }

    /// The direction that ends at a host.
    pub fn to_host(&self, host: u8) -> u8
        requires { host < hosts_in self.now }
        ensures to { direction_to self.now (places.Host host) ≡ Some result }
        ensures there { result < 2 * length self.now.links }
    {
        other(self.from_host(host))
    }

    /// The direction that starts at a port of a cube, if the port has a link.
    pub fn from_port(&self, cube: u8, port: u8) -> Option<u8>
        requires { cube < cubes_in self.now }
        ensures from { result ≡ direction_from self.now (places.Port cube port) }
        ensures there { IfSome result (λ direction. direction < 2 * length self.now.links) }
    {
        let starts = &self.ports;
        if port >= PORTS {
            return None;
        }
        starts[usize::from(cube * PORTS + port)]
    }

    /// The direction that ends at a port of a cube, which has a link.
    pub fn to_port(&self, cube: u8, port: u8) -> u8
        requires { IsPortIn self.now cube port }
        ensures to { direction_to self.now (places.Port cube port) ≡ Some result }
        ensures there { result < 2 * length self.now.links }
    {
        other(self.from_port(cube, port).unwrap())
    }

    /// Where a packet goes from a port of a cube.
    #[inline(always)]
    pub fn goal(&self, cube: u8, packet: &Packet) -> To
        requires cube { cube < cubes_in self.now }
        requires way { HasWay (graph_of self.now) packet.now packet.now.poisoned }
        ensures { result ≡ where_to (graph_of self.now) (shape_of self.now cube) cube packet.now }
    {
        let setup = self.cubes[usize::from(cube)];
        way_of(&self.routes, setup.shape, cube, packet)
    }

    /// The port by which a packet with this head leaves that arrives at a port of a cube, if it may
    /// be forwarded there before it has come whole.
    pub fn onward_port(&self, cube: u8, port: u8, head: &Head) -> Option<u8>
        requires { cube < cubes_in self.now }
        ensures { result ≡ onward_port self.now cube port head.now }
    {
        let onward = match head.command.family() {
            Family::Ask => self.port_to_cube(cube, head.cube)?,
            Family::Reply => self.port_to_host(cube, head.slid)?,
            Family::Flow => return None,
        };
        if onward == port { None } else { Some(onward) }
    }

    // The port towards another cube, if it is there.
    fn port_to_cube(&self, cube: u8, goal: u8) -> Option<u8>
        requires { cube < cubes_in self.now }
        ensures { result ≡ towards_cube self.now cube goal }
    {
        if usize::from(goal) < self.cubes.len() {
            self.routes.to_cube(cube, goal)
        } else {
            None
        }
    }

    // The port towards a host, if it is there.
    fn port_to_host(&self, cube: u8, host: u8) -> Option<u8>
        requires { cube < cubes_in self.now }
        ensures { result ≡ towards_host self.now cube host }
    {
        if self.has_host(host) {
            Some(self.port_towards(cube, host))
        } else {
            None
        }
    }

    // Whether there is a host with this number.
    fn has_host(&self, host: u8) -> bool
        ensures { IsTrue result ↔ (host < hosts_in self.now) }
    {
        usize::from(host) < HOSTS && self.hosts[usize::from(host)].is_some()
    }

    /// The profile of the link of a direction.
    pub fn profile(&self, direction: u8) -> Profile
        requires { direction < 2 * length self.now.links }
        ensures { result ≡ profile_of self.now direction }
    {
        self.links[usize::from(direction / 2)].setup.profile
    }

    /// The shape of a cube.
    pub fn shape(&self, cube: u8) -> Shape
        requires { cube < cubes_in self.now }
        ensures { result ≡ shape_of self.now cube }
    {
        self.cubes[usize::from(cube)].shape
    }

    /// The port through which an answer leaves a cube towards a host.
    pub fn port_towards(&self, cube: u8, host: u8) -> u8
        requires cube { cube < cubes_in self.now }
        requires host { host < hosts_in self.now }
        ensures { port_towards self.now cube host ≡ Some result }
    {
        self.routes.to_host(cube, host)
    }
}

// The other direction of the same link.
fn other(direction: u8) -> u8
    ensures { result ≡ other direction }
{
    if direction % 2 == 0 {
        direction + 1
    } else {
        direction - 1
    }
}

// What the links join.
fn joins_of(alloc: Global, links: &[LinkRow]) -> Result<Vec<Join>, Memory>
    ensures { IfOk result (λ joins. joins.items ≡ map (λ link. link.join) links.now) }
{
    let joins = links.iter().map(|link| link.join).collect(alloc)?;
    Ok(joins)
}

// The routes of a graph whose cubes are all reached.
fn routes_of(alloc: Global, graph: &Graph) -> Result<Routes, Memory>
    requires graph { IsGraph graph.now }
    requires one_part { InOnePart graph.now }
    ensures { IfOk result (λ routes. routes ≡ graph.now) }
{
    match Routes::build(alloc, graph) {
        Ok(routes) => Ok(routes),
        Err(RouteFault::Memory) => Err(Memory),
        Err(RouteFault::Parted { .. }) => unreachable!(),
    }
}
