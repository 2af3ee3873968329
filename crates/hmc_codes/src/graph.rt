//! The graph of cubes and hosts.

ghost use Rattle.std.specs.Prelude.{◌≡◌};

use crate::Join;
use std::marker::Model;

/// The number of cubes, and what each link joins, in the order of the links' numbers. Contracts see
/// the number and the list.
#[derive(Drop)]
pub struct Graph {
    cubes: u8,
    joins: Vec<Join>,
}

impl Model for Graph {
    ghost use Rattle.hmc_codes.specs.Graph.{GraphFields};

    ghost Value = { GraphFields };

    ghost view = { λ g. record { cubes = g.cubes; joins = g.joins.items } };
}

impl Graph {
    ghost use Rattle.hmc_codes.specs.Graph.{GraphFields};

    /// The graph of this number of cubes with these joins.
    pub fn new(cubes: u8, joins: Vec<Join>) -> Self
        ensures { result ≡ record { cubes = cubes; joins = joins.items } }
    {
        Graph { cubes, joins }
    }

    /// The number of cubes.
    pub fn cubes(&self) -> u8
        ensures { result ≡ self.now.cubes }
    {
        self.cubes
    }

    /// What each link joins.
    pub fn joins(&self) -> &[Join]
        ensures { result.now ≡ self.now.joins }
    {
        &self.joins
    }
}
