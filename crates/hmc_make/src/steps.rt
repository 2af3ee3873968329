//! The schedule.

ghost use Rattle.std.specs.Prelude.{◌≡◌, ◌≤◌, IfOk};
ghost use Rattle.std.specs.List.{All};
ghost use Rattle.hmc_case.specs.Plan.{plan_of};
ghost use Rattle.hmc_schedule.specs.Plan.{IsStepOf};
ghost use Rattle.hmc_make.specs.Chain.{chain_of};
ghost use Rattle.hmc_make.specs.Steps.{steps_of};

use crate::plan::plan_of;
use hmc_codes::{Flit, Memory};
use hmc_schedule::Schedule;
use std::alloc::Global;

// The mask of the noise.
const MASK: Flit = [0, 0, 0, 0, 0, 0, 0, 0, 0, 0, 0, 0, 0, 0, 0, 1];

/// The schedule of a chain of 1 to 4 cubes: 4,000 rounds with noise, then 2,000 without.
#[tactic(auto, unfolding(crate::specs::Steps::steps_of))]
pub fn schedule_of(alloc: Global, cubes: u8) -> Result<Schedule, Memory>
    requires some { 1 ≤ cubes }
    requires few { cubes ≤ 4 }
    ensures steps { IfOk result (λ schedule. schedule ≡ steps_of (plan_of (chain_of cubes))) }
    ensures within { IfOk result (λ schedule. All (IsStepOf (plan_of (chain_of cubes))) schedule) }
{
    let plan = plan_of(alloc, cubes)?;
    let mut schedule = Schedule::new(alloc);
    schedule.rounds(&plan, 4000, Some((2003, MASK)))?;
    schedule.rounds(&plan, 2000, None)?;
    Ok(schedule)
}
