//! What the layers above know of a bench.

ghost use Rattle.std.specs.Prelude.{◌≡◌, ◌↔◌, List, Option, false, IsNone, IfNone};
ghost use Rattle.std.specs.List.{list_any};
ghost use Rattle.hmc_units.specs.Unit.{UnitFields};
ghost use Rattle.hmc_units.specs.Bench.{serves, bench_acted, worked_slots, is_live, retired_slots};

use hmc_codes::Acted;

/// Units in slots. Calls above take any type that is one, since a boxed unit may not be lent from
/// crate to crate.
pub trait Workbench: Drop {
    /// The slots from 0 on: each has a unit, or is empty.
    ghost slots: { Self → List (Option UnitFields) };

    /// The unit of this cube and code works on a block with an operand. `None` exactly where no
    /// live unit has them, and then nothing changes.
    fn work(&mut self, cube: u8, code: u8, block: [u8; 16], operand: [u8; 16]) -> Option<Acted>
        ensures acted { result ≡ bench_acted (slots self.old) cube code block operand }
        ensures slots { slots self.new ≡ worked_slots (slots self.old) cube code block operand }
        ensures none { IsNone result ↔ (list_any (serves cube code) (slots self.old) ≡ false) }
        ensures unchanged { IfNone result (slots self.new ≡ slots self.old) };

    /// Drops the unit of a slot, which stays empty from then on. Returns false exactly where the
    /// slot has none, and then nothing changes.
    fn retire(&mut self, slot: u8) -> bool
        ensures live { result ≡ is_live (slots self.old) slot }
        ensures slots { slots self.new ≡ retired_slots (slots self.old) slot };
}
