//! The parts of the network for which a schedule is read.

ghost use Rattle.std.specs.Prelude.{◌≡◌, ◌^◌, false, length, slice_index_or};

use hmc_codes::{PORTS, Shape};
use std::marker::Model;

/// The parts of a cube that steps name.
#[derive(Clone, Copy)]
pub struct CubePlan {
    /// Its vaults and banks.
    pub shape: Shape,
    /// Which of its ports a link joins.
    pub ports: [bool; PORTS as usize],
}

/// The parts of a network. Contracts see the two numbers and the list of cubes.
#[derive(Drop)]
pub struct Plan {
    /// The number of hosts; 1 to 8.
    pub hosts: u8,
    /// The number of directions, two for each link; 2 to 64.
    pub directions: u8,
    /// The cubes by their numbers; 1 to 8.
    pub cubes: Vec<CubePlan>,
}

impl Model for Plan {
    ghost use Rattle.hmc_schedule.specs.Plan.{PlanFields, IsPlan};

    ghost Value = { PlanFields };

    ghost view = { λ p. record {
      hosts = p.hosts;
      directions = p.directions;
      cubes = p.cubes.items;
    } };

    ghost invariant = { λ p. IsPlan (record {
      hosts = p.hosts;
      directions = p.directions;
      cubes = p.cubes.items;
    }) };
}

// Whether the port with this number is joined.
fn joined_in(ports: &[bool], port: u8) -> bool
    ensures { result ≡ slice_index_or ports.now port false }
{
    match ports.get(usize::from(port)) {
        Some(joined) => *joined,
        None => false,
    }
}

fn vaults_in(shape: Shape) -> u8
    ensures { result ≡ 2 ^ shape.vault_bits }
{
    shape.invariant();
    1 << shape.vault_bits
}

fn banks_in(shape: Shape) -> u8
    ensures { result ≡ 2 ^ shape.bank_bits }
{
    shape.invariant();
    1 << shape.bank_bits
}

impl Plan {
    ghost use Rattle.hmc_schedule.specs.Plan.{is_joined, vaults_at, banks_at};

    /// The number of cubes.
    pub fn cube_count(&self) -> u8
        ensures { result ≡ length self.now.cubes }
    {
        self.cubes.len() as u8
    }

    /// Whether a link joins this port of this cube; false where there is no such cube or port.
    pub fn is_joined(&self, cube: u8, port: u8) -> bool
        ensures { result ≡ is_joined self.now cube port }
    {
        match self.cubes.get(usize::from(cube)) {
            Some(fields) => joined_in(&fields.ports, port),
            None => false,
        }
    }

    /// The number of vaults of this cube, or 0 where there is no such cube.
    pub fn vaults(&self, cube: u8) -> u8
        ensures { result ≡ vaults_at self.now cube }
    {
        match self.cubes.get(usize::from(cube)) {
            Some(fields) => vaults_in(fields.shape),
            None => 0,
        }
    }

    /// The number of banks in each vault of this cube, or 0 where there is no such cube.
    pub fn banks(&self, cube: u8) -> u8
        ensures { result ≡ banks_at self.now cube }
    {
        match self.cubes.get(usize::from(cube)) {
            Some(fields) => banks_in(fields.shape),
            None => 0,
        }
    }
}
