//! Which steps name parts of a plan, and what each step has.

ghost use Rattle.std.specs.Prelude.{◌≡◌, ◌<◌, ◌≤◌, ◌&&◌, nat_lt, length, IsTrue};
ghost use Rattle.hmc_codes.specs.Limits.{most_cubes, most_hosts};
ghost use Rattle.hmc_schedule.specs.Plan.{IsStepOf, IsPortOf, IsVaultOf, IsBankOf, IsLiftOf, HasFlit, banks_at};
ghost use Rattle.hmc_session.specs.Refusals.{has_cube, has_port, has_vault, has_lift, has_step};

use hmc_codes::{Lift, PORTS};
use hmc_ends::flit_is_bytes;
use hmc_schedule::{Plan, Step};

/// The number of hosts of a plan.
pub fn host_count(plan: &Plan) -> u8
    ensures count { result ≡ plan.now.hosts }
    ensures few { result ≤ most_hosts }
{
    plan.hosts
}

/// The number of cubes of a plan.
pub fn cube_count(plan: &Plan) -> u8
    ensures count { result ≡ length plan.now.cubes }
    ensures few { result ≤ most_cubes }
{
    plan.cubes.len() as u8
}

#[inline(always)]
fn has_cube(plan: &Plan, cube: u8) -> bool
    ensures value { result ≡ has_cube plan.now cube }
    ensures means { IsTrue result → cube < length plan.now.cubes }
{
    cube < plan.cube_count()
}

#[inline(always)]
fn has_port(plan: &Plan, cube: u8, port: u8) -> bool
    ensures value { result ≡ has_port plan.now cube port }
    ensures means { IsTrue result → IsPortOf plan.now cube port }
{
    port < PORTS && plan.is_joined(cube, port)
}

#[inline(always)]
fn has_vault(plan: &Plan, cube: u8, vault: u8) -> bool
    ensures value { result ≡ has_vault plan.now cube vault }
    ensures means { IsTrue result → IsVaultOf plan.now cube vault }
{
    vault < plan.vaults(cube)
}

#[inline(always)]
fn has_lift(plan: &Plan, cube: u8, from: Lift) -> bool
    ensures value { result ≡ has_lift plan.now cube from }
    ensures means { IsTrue result → IsLiftOf plan.now cube from }
{
    match from {
        Lift::Vault(vault) => has_vault(plan, cube, vault),
        Lift::Registers => has_cube(plan, cube),
    }
}

#[inline(always)]
fn has_host(plan: &Plan, host: u8) -> bool
    ensures value { result ≡ nat_lt host plan.now.hosts }
    ensures means { IsTrue result → host < plan.now.hosts }
{
    host < plan.hosts
}

#[inline(always)]
fn has_direction(plan: &Plan, direction: u8) -> bool
    ensures value { result ≡ nat_lt direction plan.now.directions }
    ensures means { IsTrue result → direction < plan.now.directions }
{
    direction < plan.directions
}

#[inline(always)]
fn has_bank(plan: &Plan, cube: u8, vault: u8, bank: u8) -> bool
    ensures value { result ≡
        (has_vault plan.now cube vault && nat_lt bank (banks_at plan.now cube)) }
    ensures means { IsTrue result → IsBankOf plan.now cube vault bank }
{
    has_vault(plan, cube, vault) && bank < plan.banks(cube)
}

/// Whether each number that the step names is one of the plan, or of a slot.
#[inline(always)]
pub fn has_step(plan: &Plan, step: &Step) -> bool
    ensures value { result ≡ has_step plan.now step.now }
    ensures means { IsTrue result → IsStepOf plan.now step.now }
{
    match step {
        Step::Give(host) => has_host(plan, *host),
        Step::Send(direction) => has_direction(plan, *direction),
        Step::Land(direction, _) => has_direction(plan, *direction),
        Step::Shift(cube, port) => has_port(plan, *cube, *port),
        Step::Spread(cube, vault) => has_vault(plan, *cube, *vault),
        Step::Bank(cube, vault, bank) => has_bank(plan, *cube, *vault, *bank),
        Step::Registers(cube) => has_cube(plan, *cube),
        Step::Lift(cube, from) => has_lift(plan, *cube, *from),
        Step::Take(host) => has_host(plan, *host),
        Step::Through(cube, port) => has_port(plan, *cube, *port),
        Step::Unlock(direction) => has_direction(plan, *direction),
        Step::Retire(slot) => *slot < 8,
    }
}

/// Does nothing. Its contract is that the mask of a landing is 16 bytes.
pub fn has_flit(step: &Step)
    ensures { HasFlit step.now }
{
    if let Step::Land(_, mask) = step {
        flit_is_bytes(mask);
    }
}
