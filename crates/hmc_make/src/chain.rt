//! The cubes and links of a chain.

ghost use Rattle.std.specs.Prelude.{◌≡◌, IfOk, map, replicate};
ghost use Rattle.hmc_codes.specs.Numbers.{upto};
ghost use Rattle.hmc_codes.specs.declared.place.Place.TheVariants as places;
ghost use Rattle.hmc_make.specs.Chain.{cube, joined_to, link, links_of};

use hmc_case::{CubeSetup, LinkRow};
use hmc_codes::{Join, LinkSetup, Place, Profile, Shape};
use std::alloc::{AllocError, Global};

fn cube() -> CubeSetup
    ensures { result ≡ cube }
{
    CubeSetup {
        shape: Shape {
            vault_bits: 1,
            bank_bits: 1,
            rows: 16,
            block: 256,
        },
        queue: 4,
    }
}

// A cube for each number below this one.
fn cube_each(alloc: Global, cubes: u8) -> Result<Vec<CubeSetup>, AllocError>
    ensures { IfOk result (λ setups. setups.items ≡ map (λ number. cube) (upto cubes)) }
{
    (0..cubes).map(|_| cube()).collect(alloc)
}

/// This many cubes.
pub fn cubes_of(alloc: Global, cubes: u8) -> Result<Vec<CubeSetup>, AllocError>
    ensures { IfOk result (λ setups. setups.items ≡ replicate cubes cube) }
{
    cube_each(alloc, cubes)
}

// What is joined to port 0 of a cube.
fn joined_to(cube: u8) -> Place
    ensures { result ≡ joined_to cube }
{
    if cube == 0 {
        Place::Host(0)
    } else {
        Place::Port {
            cube: cube - 1,
            port: 1,
        }
    }
}

// The link to port 0 of a cube.
fn link_to(cube: u8) -> LinkRow
    ensures { result ≡ link (joined_to cube) (places.Port cube 0) }
{
    LinkRow {
        join: Join {
            a: joined_to(cube),
            b: Place::Port { cube, port: 0 },
        },
        setup: LinkSetup {
            line: 8,
            tokens: 64,
            retry: 128,
            output: 4,
            profile: Profile::One,
        },
    }
}

/// The links of a chain of this many cubes.
pub fn links_of(alloc: Global, cubes: u8) -> Result<Vec<LinkRow>, AllocError>
    ensures { IfOk result (λ links. links.items ≡ links_of cubes) }
{
    (0..cubes).map(|cube| link_to(cube)).collect(alloc)
}
