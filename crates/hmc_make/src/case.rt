//! The case of a number.

ghost use Rattle.std.specs.Prelude.{◌≡◌, IfOk};
ghost use Rattle.hmc_make.specs.Numbered.{case_of_number};

use crate::chain::{cubes_of, links_of};
use crate::items::script_of;
use crate::steps::schedule_of;
use hmc_case::Case;
use hmc_codes::Memory;
use std::alloc::Global;

/// The case of a number; any number has one. `Memory` if out of memory.
#[tactic(auto, unfolding(crate::specs::Numbered::case_of_number))]
pub fn make(alloc: Global, number: u64) -> Result<Case, Memory>
    ensures { IfOk result (λ case. case ≡ case_of_number number) }
{
    let count = 1 + (number % 4) as u8;
    let cubes = cubes_of(alloc, count)?;
    let links = links_of(alloc, count)?;
    let script = script_of(alloc, number, count)?;
    let schedule = schedule_of(alloc, count)?;
    Ok(Case::of(cubes, links, script, schedule))
}
