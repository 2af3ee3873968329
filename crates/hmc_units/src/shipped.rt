//! The shipped kinds of units as one type.

use crate::{LogicUnit, Reverse, Stamp};
use hmc_codes::Acted;

/// A unit of a shipped kind, for a bench whose units are chosen while a program runs. A bench of
/// them needs no box.
#[derive(Drop)]
pub enum Shipped {
    /// A unit that reverses blocks.
    Reverse(Reverse),
    /// A unit that numbers blocks.
    Stamp(Stamp),
}

impl LogicUnit for Shipped {
    ghost use Rattle.hmc_units.specs.Kinds.{unit_of};

    ghost meaning = { unit_of };

    fn cube(&self) -> u8 {
        match self {
            Shipped::Reverse(unit) => unit.cube(),
            Shipped::Stamp(unit) => unit.cube(),
        }
    }

    fn code(&self) -> u8 {
        match self {
            Shipped::Reverse(unit) => unit.code(),
            Shipped::Stamp(unit) => unit.code(),
        }
    }

    fn work(&mut self, block: [u8; 16], operand: [u8; 16]) -> Acted {
        match self {
            Shipped::Reverse(unit) => unit.work(block, operand),
            Shipped::Stamp(unit) => unit.work(block, operand),
        }
    }
}

impl Shipped {
    ghost use Rattle.std.specs.Prelude.{◌≡◌};
    ghost use Rattle.std.specs.Option.{option_map};
    ghost use Rattle.hmc_units.specs.Kinds.{unit_of, unit_by_numbers};

    /// The unit that these numbers name, if they name one: kind 0 reverses blocks, and kind 1
    /// numbers blocks and never worked. The cube and the code are below 8.
    pub fn by_numbers(kind: u8, cube: u8, code: u8) -> Option<Self>
        ensures { option_map unit_of result ≡ unit_by_numbers kind cube code }
    {
        if cube >= 8 || code >= 8 {
            return None;
        }
        match kind {
            0 => Some(Shipped::Reverse(Reverse::new(cube, code))),
            1 => Some(Shipped::Stamp(Stamp::new(cube, code))),
            _ => None,
        }
    }
}
