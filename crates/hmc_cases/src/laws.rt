//! Laws of cases. Each is the contract of a function that does nothing.

ghost use Rattle.std.specs.Prelude.{◌≡◌, ℕ, List, Ok};
ghost use Rattle.hmc_case.specs.Case.{CaseFields, IsCase, case_of};
ghost use Rattle.hmc_make.specs.Numbered.{case_of_number};

/// A case that is read keeps what every case keeps (`IsCase` of hmc_case): its cubes and links are
/// a network in one part within the limits, its requests are good and not too many, each part that
/// a request or a step names is one of the case, and each mask is 16 bytes.
pub fn read_is_case()
    ensures { (bytes : List ℕ) (case : CaseFields) → case_of bytes ≡ Ok case → IsCase case }
{}

/// The case of a number keeps that too, for every number.
pub fn made_is_case()
    ensures { (number : ℕ) → IsCase (case_of_number number) }
{}
