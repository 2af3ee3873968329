//! The parts that the schedule of a case may name.

ghost use Rattle.std.specs.Prelude.{◌≡◌, ◌≤◌, length, map, IfOk};
ghost use Rattle.hmc_codes.specs.Limits.{most_cubes, ports};
ghost use Rattle.hmc_codes.specs.Numbers.{upto};
ghost use Rattle.hmc_codes.specs.declared.place.Place.TheVariants as places;
ghost use Rattle.hmc_case.specs.Places.{is_taken};
ghost use Rattle.hmc_case.specs.Plan.{plans_of, plan_of};

use crate::net::Net;
use crate::place::is_taken;
use crate::rows::append;
use crate::{CubeSetup, LinkRow};
use hmc_codes::{Memory, PORTS, Place};
use hmc_schedule::{CubePlan, Plan};
use std::alloc::Global;

// Which ports of a cube a link joins.
fn ports_of(links: &[LinkRow], cube: u8) -> [bool; PORTS as usize]
    ensures { result ≡ map (λ port. is_taken links.now (places.Port cube port)) (upto ports) }
{
    [
        is_taken(links, Place::Port { cube, port: 0 }),
        is_taken(links, Place::Port { cube, port: 1 }),
        is_taken(links, Place::Port { cube, port: 2 }),
        is_taken(links, Place::Port { cube, port: 3 }),
    ]
}

// Each cube of a plan.
fn plans_of(alloc: Global, links: &[LinkRow], cubes: &[CubeSetup]) -> Result<Vec<CubePlan>, Memory>
    requires { length cubes.now ≤ most_cubes }
    ensures { IfOk result (λ plans. plans.items ≡ plans_of links.now 0 cubes.now) }
{
    let mut plans = Vec::new(alloc);
    'cubes: for cube in cubes {
        let number = plans.len() as u8;
        append(
            &mut plans,
            CubePlan {
                shape: cube.shape,
                ports: ports_of(links, number),
            },
        )?;
    }
    Ok(plans)
}

/// The plan of the cubes and links.
pub fn plan_of(alloc: Global, net: &Net) -> Result<Plan, Memory>
    ensures { IfOk result (λ plan. plan ≡ plan_of net.now) }
{
    let cubes = plans_of(alloc, &net.links, &net.cubes)?;
    Ok(Plan {
        hosts: net.hosts,
        directions: 2 * net.links.len() as u8,
        cubes,
    })
}
