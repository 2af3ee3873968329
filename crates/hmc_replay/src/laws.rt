//! Laws of what is due. Each is the contract of a function that does nothing.

ghost use Rattle.std.specs.Prelude.{◌≡◌, ℕ, List, [], ◌∷◌, Option};
ghost use Rattle.hmc_units.specs.Unit.{UnitFields};
ghost use Rattle.hmc_replay.specs.Answer.{IsAnswer};
ghost use Rattle.hmc_replay.specs.Top.{NoneOf};
ghost use Rattle.hmc_replay.specs.declared.form.Form.{Form};

use hmc_bound::drains;
use hmc_cases::{made_is_case, read_is_case};
use hmc_delivery::journal_guarantees;

/// What is due for an input is one status and one list of lines. The status is none of those that
/// have other causes: 1 to 5.
pub fn answer_is_one()
    ensures status { (form : Form) (slots : List (Option UnitFields)) (input : List ℕ)
        (one other : ℕ) (first second : List (List ℕ)) →
        IsAnswer form slots input one first → IsAnswer form slots input other second →
        one ≡ other }
    ensures lines { (form : Form) (slots : List (Option UnitFields)) (input : List ℕ)
        (one other : ℕ) (first second : List (List ℕ)) →
        IsAnswer form slots input one first → IsAnswer form slots input other second →
        first ≡ second }
    ensures own { (form : Form) (slots : List (Option UnitFields)) (input : List ℕ) (status : ℕ)
        (lines : List (List ℕ)) → IsAnswer form slots input status lines →
        NoneOf (1 ∷ 2 ∷ 3 ∷ 4 ∷ 5 ∷ []) status }
{}

/// Something is due for every input, whatever the logic units are.
pub fn answer_exists()
    ensures { (form : Form) (slots : List (Option UnitFields)) (input : List ℕ) →
        (status : ℕ) × (lines : List (List ℕ)) × IsAnswer form slots input status lines }
{
    read_is_case();
    made_is_case();
    journal_guarantees();
    drains();
}
