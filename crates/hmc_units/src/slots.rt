//! The bench.

use crate::slot::Slot;
use crate::{LogicUnit, Workbench};
use hmc_codes::{Acted, Memory};
use std::alloc::Global;

/// Units in slots, in the order in which they were handed in.
#[derive(Drop)]
pub struct Slots<U> {
    slots: Vec<Slot<U>>,
}

/// A bench of boxed units.
pub type Bench = Slots<Box<dyn LogicUnit>>;

impl<U: LogicUnit> Slots<U> {
    ghost use Rattle.std.specs.Prelude.{◌≡◌, ◌≤◌, IfOk, Some, map, vec_len};
    ghost use Rattle.std.specs.List.{position};
    ghost use Rattle.hmc_units.specs.Bench.{most_units, serves};
    ghost use Rattle.hmc_units.specs.Slot.{unit_in};
    ghost use Rattle.hmc_units.specs.Slots.{units_in};

    /// A bench of at most eight units: the unit at place i is in slot i. Where two have the same
    /// cube and code, the one in the lower slot works as long as it is live.
    pub fn new(alloc: Global, units: Vec<U>) -> Result<Self, Memory>
        requires { vec_len units ≤ most_units }
        ensures { IfOk result (λ bench.
            units_in U.meaning bench ≡ map (λ unit. Some (U.meaning unit)) units.items) }
    {
        let mut slots = Vec::with_capacity(alloc, units.len())?;
        'units: for unit in units {
            slots.push(Slot::new(unit))?;
        }
        Ok(Slots { slots })
    }

    // The place of the first slot that has a unit of this cube and code.
    fn place_of(&self, cube: u8, code: u8) -> Option<usize>
        ensures { result ≡ position (λ slot. serves cube code (unit_in U.meaning slot))
            self.now.slots.items }
    {
        self.slots.iter().position(|slot| slot.serves(cube, code))
    }
}

impl<U: LogicUnit> Workbench for Slots<U> {
    ghost use Rattle.hmc_units.specs.Slots.{units_in};

    ghost slots = { units_in U.meaning };

    fn work(&mut self, cube: u8, code: u8, block: [u8; 16], operand: [u8; 16]) -> Option<Acted> {
        let place = self.place_of(cube, code)?;
        self.slots[place].work(block, operand)
    }

    fn retire(&mut self, slot: u8) -> bool {
        let place = usize::from(slot);
        if place >= self.slots.len() {
            return false;
        }
        self.slots[place].retire()
    }
}
