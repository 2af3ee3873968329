//! One slot of a bench.

use crate::LogicUnit;
use hmc_codes::Acted;

/// A unit in its slot, until it is retired.
#[derive(Drop)]
pub struct Slot<U> {
    unit: Option<U>,
}

impl<U: LogicUnit> Slot<U> {
    ghost use Rattle.std.specs.Prelude.{◌≡◌, Some, None, is_some};
    ghost use Rattle.hmc_units.specs.Bench.{serves, acted_in, worked_slot};
    ghost use Rattle.hmc_units.specs.Slot.{unit_in};

    /// The slot of a unit.
    pub fn new(unit: U) -> Self
        ensures { unit_in U.meaning result ≡ Some (U.meaning unit) }
    {
        Slot { unit: Some(unit) }
    }

    /// Whether it has a unit of this cube and code.
    pub fn serves(&self, cube: u8, code: u8) -> bool
        ensures { result ≡ serves cube code (unit_in U.meaning self.now) }
    {
        match &self.unit {
            Some(unit) => unit.cube() == cube && unit.code() == code,
            None => false,
        }
    }

    /// Its unit works on a block. `None` if it is empty, and then nothing changes.
    pub fn work(&mut self, block: [u8; 16], operand: [u8; 16]) -> Option<Acted>
        ensures acted { result ≡ acted_in (unit_in U.meaning self.old) block operand }
        ensures unit { unit_in U.meaning self.new
            ≡ worked_slot (unit_in U.meaning self.old) block operand }
    {
        match &mut self.unit {
            Some(unit) => Some(unit.work(block, operand)),
            None => None,
        }
    }

    /// Drops its unit. Returns whether it had one.
    pub fn retire(&mut self) -> bool
        ensures had { result ≡ is_some (unit_in U.meaning self.old) }
        ensures empty { unit_in U.meaning self.new ≡ None }
    {
        self.unit.take().is_some()
    }
}
