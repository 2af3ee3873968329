//! The parts that steps name.

ghost use Rattle.std.specs.Prelude.{◌≡◌, ◌≤◌, map, IfOk};
ghost use Rattle.hmc_codes.specs.Numbers.{upto};
ghost use Rattle.hmc_case.specs.Plan.{plan_of};
ghost use Rattle.hmc_make.specs.Chain.{chain_of};
ghost use Rattle.hmc_make.specs.Plan.{cube_plan};

use hmc_codes::{Memory, Shape};
use hmc_schedule::{CubePlan, Plan};
use std::alloc::{AllocError, Global};

// A cube in a chain of this many: links join port 0 and, except at the last cube, port 1.
fn cube_plan(number: u8, cubes: u8) -> CubePlan
    ensures { result ≡ cube_plan cubes number }
{
    CubePlan {
        shape: Shape {
            vault_bits: 1,
            bank_bits: 1,
            rows: 16,
            block: 256,
        },
        ports: [true, u16::from(number) + 1 < u16::from(cubes), false, false],
    }
}

// The cubes of a chain.
fn cube_plans(alloc: Global, cubes: u8) -> Result<Vec<CubePlan>, AllocError>
    ensures { IfOk result (λ plans. plans.items ≡ map (cube_plan cubes) (upto cubes)) }
{
    (0..cubes)
        .map(|number| cube_plan(number, cubes))
        .collect(alloc)
}

/// The plan of a chain of 1 to 4 cubes.
pub fn plan_of(alloc: Global, cubes: u8) -> Result<Plan, Memory>
    requires some { 1 ≤ cubes }
    requires few { cubes ≤ 4 }
    ensures { IfOk result (λ plan. plan ≡ plan_of (chain_of cubes)) }
{
    let plans = cube_plans(alloc, cubes)?;
    Ok(Plan {
        hosts: 1,
        directions: 2 * cubes,
        cubes: plans,
    })
}
