//! Laws of a bench. Each is the contract of a function that does nothing.

ghost use Rattle.std.specs.Prelude.{◌≡◌, ℕ, List, Option, false};
ghost use Rattle.hmc_units.specs.Unit.{UnitFields};
ghost use Rattle.hmc_units.specs.Bench.{worked_slots, is_live, retired_slots};

/// A retired slot is empty, and an empty slot stays so, whatever works or is retired after it.
pub fn empty_slots_stay_empty()
    ensures retired { (slots : List (Option UnitFields)) (slot : ℕ) →
        is_live (retired_slots slots slot) slot ≡ false }
    ensures worked { (slots : List (Option UnitFields)) (slot cube code : ℕ)
        (block operand : List ℕ) → is_live slots slot ≡ false →
        is_live (worked_slots slots cube code block operand) slot ≡ false }
    ensures others { (slots : List (Option UnitFields)) (slot other : ℕ) →
        is_live slots slot ≡ false → is_live (retired_slots slots other) slot ≡ false }
{}
