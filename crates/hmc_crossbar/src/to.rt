//! Where packets go.

ghost use Rattle.std.specs.Prelude.{◌≡◌, ◌<◌, ◌==◌};
ghost use Rattle.hmc_codes.specs.Commands.{family_of};
ghost use Rattle.hmc_codes.specs.declared.family.Family.TheVariants as families;
ghost use Rattle.hmc_crossbar.specs.To.{HasWay, request_to, where_to};

use hmc_codes::{Family, Shape};
use hmc_packet::Packet;
use hmc_routes::Routes;
use hmc_serial::is_for_registers;

/// Where a packet goes from a port of a cube.
#[derive(Clone, Copy, PartialEq, Eq)]
pub enum To {
    /// To a vault of this cube, by its number, below 32.
    Vault(u8),
    /// To the registers of this cube.
    Registers,
    /// Out through a port of this cube, by its number, below 4.
    Port(u8),
    /// Nowhere: it is dropped.
    Nowhere,
}

// A request that is in its cube goes to a unit, and another to the port towards its cube.
#[inline(always)]
fn request_goal(routes: &Routes, shape: Shape, cube: u8, packet: &Packet) -> To
    requires cube { cube < routes.now.cubes }
    requires goal { packet.now.cube < routes.now.cubes }
    ensures { result ≡ request_to routes.now shape cube packet.now (packet.now.cube == cube) }
{
    if packet.cube != cube {
        return match routes.to_cube(cube, packet.cube) {
            Some(port) => To::Port(port),
            None => To::Nowhere,
        };
    }
    if is_for_registers(packet.command) {
        return To::Registers;
    }
    To::Vault(shape.spot(packet.address).vault)
}

/// Where the packet goes from a port of this cube, which has this shape: nowhere if it is poisoned;
/// an answer through the port towards its host, and a request of another cube through the port
/// towards that; in its cube a request that reads or writes a register goes to the registers, and
/// any other to the vault that its address names.
///
/// The cube is one of the graph from which the routes were built, and so is the cube of a request
/// or the host of an answer, unless the packet is poisoned.
#[inline(always)]
pub fn way_of(routes: &Routes, shape: Shape, cube: u8, packet: &Packet) -> To
    requires cube { cube < routes.now.cubes }
    requires way { HasWay routes.now packet.now packet.now.poisoned }
    ensures { result ≡ where_to routes.now shape cube packet.now }
{
    if packet.poisoned {
        return To::Nowhere;
    }
    match packet.command.family() {
        Family::Reply => To::Port(routes.to_host(cube, packet.slid)),
        Family::Ask => request_goal(routes, shape, cube, packet),
        Family::Flow => To::Nowhere,
    }
}
