//! A unit that reverses blocks.

ghost use Rattle.std.specs.Prelude.{◌<◌};

use crate::LogicUnit;
use hmc_codes::Acted;

/// A unit that reverses the order of a block's bytes. It keeps nothing.
#[derive(Drop)]
pub struct Reverse {
    cube: u8,
    code: u8,
    pub ghost cube_below: { cube < 8 },
    pub ghost code_below: { code < 8 },
}

#[tactic(auto, unfolding(crate::specs::Shipped::reverse_unit))]
impl LogicUnit for Reverse {
    ghost use Rattle.hmc_units.specs.Shipped.{reverse_unit};

    ghost meaning = { λ unit. reverse_unit unit.cube unit.code };

    fn cube(&self) -> u8 {
        self.cube
    }

    fn code(&self) -> u8 {
        self.code
    }

    fn work(&mut self, block: [u8; 16], _operand: [u8; 16]) -> Acted {
        let mut reversed = block;
        reversed.reverse();
        Acted {
            block: reversed,
            answer: block,
            flag: false,
        }
    }
}

impl Reverse {
    ghost use Rattle.std.specs.Prelude.{◌≡◌};
    ghost use Rattle.hmc_units.specs.Shipped.{reverse_unit};

    /// A unit of this cube and code, both below 8.
    pub fn new(cube: u8, code: u8) -> Self
        requires cube { cube < 8 }
        requires code { code < 8 }
        ensures { ⟦<Reverse as LogicUnit>⟧.meaning result ≡ reverse_unit cube code }
    {
        Reverse { cube, code }
    }
}
