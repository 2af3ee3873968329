//! A logic unit of one's own, and a bench that has it.

ghost use Rattle.std.specs.Prelude.{◌≡◌, ◌<◌, Some, IfOk};
ghost use Rattle.hmc_callers.specs.Swap.{swapped, swap_unit};

use hmc_codes::{Acted, Memory};
use hmc_units::{Bench, LogicUnit, Workbench};
use std::alloc::Global;

/// A unit that swaps the halves of a block. It keeps nothing.
#[derive(Drop)]
pub struct Swap {
    cube: u8,
    code: u8,
    pub ghost cube_below: { cube < 8 },
    pub ghost code_below: { code < 8 },
}

#[tactic(auto, unfolding(crate::specs::Swap::swap_unit))]
impl LogicUnit for Swap {
    ghost use Rattle.hmc_callers.specs.Swap.{swap_unit};

    ghost meaning = { λ unit. swap_unit unit.cube unit.code };

    fn cube(&self) -> u8 {
        self.cube
    }

    fn code(&self) -> u8 {
        self.code
    }

    fn work(&mut self, block: [u8; 16], _operand: [u8; 16]) -> Acted {
        let mut swapped = block;
        swapped.rotate_left(8);
        Acted {
            block: swapped,
            answer: block,
            flag: false,
        }
    }
}

impl Swap {
    /// A unit of this cube and code, both below 8.
    pub fn new(cube: u8, code: u8) -> Self
        requires cube { cube < 8 }
        requires code { code < 8 }
        ensures { ⟦<Swap as LogicUnit>⟧.meaning result ≡ swap_unit cube code }
    {
        Swap { cube, code }
    }
}

/// The block after a unit in slot 0 of a bench, for `unit5` of cube 2, worked on it. `Memory` if
/// out of memory.
#[tactic(auto, unfolding(crate::specs::Swap::swap_unit))]
pub fn swapped_by_bench(alloc: Global, block: [u8; 16]) -> Result<Option<[u8; 16]>, Memory>
    ensures { IfOk result (λ block_after. block_after ≡ Some (swapped block)) }
{
    let mut units: Vec<Box<dyn LogicUnit>> = Vec::new(alloc);
    units.push(Box::new(alloc, Swap::new(2, 5))?)?;
    let mut bench = Bench::new(alloc, units)?;
    match bench.work(2, 5, block, [0; 16]) {
        Some(acted) => Ok(Some(acted.block)),
        None => Ok(None),
    }
}
