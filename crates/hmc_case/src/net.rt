//! The cubes and links of a case.

ghost use Rattle.std.specs.Prelude.{◌≡◌, ◌≤◌, vec_len};
ghost use Rattle.toml.specs.View.{array_view};
ghost use Rattle.hmc_codes.specs.Limits.{most_cubes, most_links};
ghost use Rattle.hmc_case.specs.Reading.{Answers};
ghost use Rattle.hmc_case.specs.Net.{IsNet, net_with, net_of};

use crate::cube::cubes_of;
use crate::fault::in_section;
use crate::graph::in_one_part;
use crate::link::links_of;
use crate::together::{host_count, hosts_from_zero, in_capacity};
use crate::{CaseFault, CubeSetup, LinkRow, Section};
use hmc_codes::Profile;
use std::alloc::Global;
use std::marker::Model;
use toml::value::Array;

/// The cubes and links of a case, and the number of its hosts.
#[derive(Drop)]
pub struct Net {
    pub cubes: Vec<CubeSetup>,
    pub links: Vec<LinkRow>,
    pub hosts: u8,
}

impl Model for Net {
    ghost use Rattle.hmc_case.specs.Net.{NetFields, IsNet};

    ghost Value = { NetFields };

    ghost view = { λ n. record {
      cubes = n.cubes.items;
      links = n.links.items;
      hosts = n.hosts;
    } };

    ghost invariant = { λ n. IsNet (record {
      cubes = n.cubes.items;
      links = n.links.items;
      hosts = n.hosts;
    }) };
}

/// These cubes and links, with the hosts that the links join.
pub fn net_with(cubes: Vec<CubeSetup>, links: Vec<LinkRow>) -> Net
    requires { IsNet (net_with cubes.items links.items) }
    ensures { result ≡ net_with cubes.items links.items }
{
    let hosts = host_count(&links) as u8;
    Net {
        cubes,
        links,
        hosts,
    }
}

/// Reads the cubes and links: the cubes come first, then what they are together, then the links and
/// what these are together.
#[tactic(auto, unfolding(crate::specs::Net::net_of))]
pub fn net_of(
    alloc: Global,
    profile: Profile,
    cubes: &Array,
    links: &Array,
) -> Result<Net, CaseFault>
    requires some_cubes { 1 ≤ vec_len cubes.now }
    requires few_cubes { vec_len cubes.now ≤ most_cubes }
    requires some_links { 1 ≤ vec_len links.now }
    requires few_links { vec_len links.now ≤ most_links }
    ensures { Answers (λ net. net) result
        (net_of profile (array_view cubes.now) (array_view links.now)) }
{
    let cubes = cubes_of(alloc, profile, cubes)?;
    in_section(Section::Net, 0, in_capacity(&cubes))?;
    let number = cubes.len() as u8;
    let links = links_of(alloc, profile, number, links)?;
    let hosts = hosts_from_zero(alloc, &links)?;
    in_one_part(alloc, number, &links)?;
    Ok(Net {
        cubes,
        links,
        hosts,
    })
}
