//! A unit that numbers blocks.

ghost use Rattle.std.specs.Prelude.{◌≡◌, ◌<◌};
ghost use Rattle.hmc_units.specs.Shipped.{stamped_block};

use crate::LogicUnit;
use hmc_codes::Acted;

/// A unit that counts how often it worked. A block becomes the count, as eight little-endian bytes,
/// and the operand's first eight bytes.
#[derive(Drop)]
pub struct Stamp {
    cube: u8,
    code: u8,
    count: u64,
    pub ghost cube_below: { cube < 8 },
    pub ghost code_below: { code < 8 },
}

#[tactic(auto, unfolding(crate::specs::Shipped::stamp_unit))]
impl LogicUnit for Stamp {
    ghost use Rattle.hmc_units.specs.Shipped.{stamp_unit};

    ghost meaning = { λ unit. stamp_unit unit.cube unit.code unit.count };

    fn cube(&self) -> u8 {
        self.cube
    }

    fn code(&self) -> u8 {
        self.code
    }

    fn work(&mut self, block: [u8; 16], operand: [u8; 16]) -> Acted {
        self.count = self.count.wrapping_add(1);
        Acted {
            block: stamped(self.count, operand),
            answer: block,
            flag: false,
        }
    }
}

impl Stamp {
    ghost use Rattle.hmc_units.specs.Shipped.{stamp_unit};

    /// A unit of this cube and code, both below 8, that never worked.
    pub fn new(cube: u8, code: u8) -> Self
        requires cube { cube < 8 }
        requires code { code < 8 }
        ensures { ⟦<Stamp as LogicUnit>⟧.meaning result ≡ stamp_unit cube code 0 }
    {
        Stamp {
            cube,
            code,
            count: 0,
        }
    }
}

// A number, and the operand's first half.
fn stamped(count: u64, operand: [u8; 16]) -> [u8; 16]
    ensures { result ≡ stamped_block count operand }
{
    let mut block = [0; 16];
    block[..8].copy_from_slice(&count.to_le_bytes());
    block[8..].copy_from_slice(&operand[..8]);
    block
}
