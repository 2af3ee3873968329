//! Rounds: every part of the network takes one step.

ghost use Rattle.std.specs.Prelude.{◌≡◌, ◌≤◌, ◌++◌, OnOk, IfOk, length, map, filter};
ghost use Rattle.std.specs.List.{flat_map};
ghost use Rattle.std.specs.Result.{IsOkAnd};
ghost use Rattle.hmc_schedule.specs.declared.step.Step.TheVariants as steps;
ghost use Rattle.hmc_codes.specs.declared.lift.Lift.TheVariants as lift;
ghost use Rattle.hmc_schedule.specs.Plan.{is_joined, vaults_at, banks_at};
ghost use Rattle.hmc_codes.specs.Flit.{zero_flit};
ghost use Rattle.hmc_schedule.specs.Round.{each_of, shifts_of, spreads_of, banks_of, lifts_of, part_of, round_of};
ghost use Rattle.hmc_codes.specs.Numbers.{upto};

use crate::{Plan, Step};
use hmc_codes::{Lift, Memory, PORTS, ZERO_FLIT};
use std::alloc::{AllocError, Global};

/// A part of every cube that takes steps in a round.
#[derive(Clone, Copy)]
pub enum Part {
    Shifts,
    Spreads,
    Banks,
    Lifts,
}

/// What each host, each direction or the registers of each cube do in a round.
#[derive(Clone, Copy)]
pub enum Each {
    Give,
    Send,
    Land,
    Registers,
    Take,
}

type Steps = Result<Vec<Step>, AllocError>;

// The step of this number.
#[tactic(auto, unfolding(hmc_codes::specs::Flit::zero_flit))]
fn each_step(each: Each, number: u8) -> Step
    ensures { result ≡ each_of each number }
{
    match each {
        Each::Give => Step::Give(number),
        Each::Send => Step::Send(number),
        Each::Land => Step::Land(number, ZERO_FLIT),
        Each::Registers => Step::Registers(number),
        Each::Take => Step::Take(number),
    }
}

// The steps of the numbers below this one.
fn each_steps(alloc: Global, each: Each, count: u8) -> Steps
    ensures { IfOk result (λ v. v.items ≡ map (each_of each) (upto count)) }
{
    (0..count)
        .map(|number| each_step(each, number))
        .collect(alloc)
}

#[tactic(auto, unfolding(crate::specs::Round::shifts_of))]
fn shifts(alloc: Global, plan: &Plan, cube: u8) -> Steps
    ensures { IfOk result (λ v. v.items ≡ shifts_of plan.now cube) }
{
    (0..PORTS)
        .filter(|port| plan.is_joined(cube, *port))
        .map(|port| Step::Shift(cube, port))
        .collect(alloc)
}

fn vault_steps(alloc: Global, vaults: u8, cube: u8) -> Steps
    ensures { IfOk result (λ v. v.items ≡ map (steps.Spread cube) (upto vaults)) }
{
    (0..vaults)
        .map(|vault| Step::Spread(cube, vault))
        .collect(alloc)
}

#[tactic(auto, unfolding(crate::specs::Round::spreads_of))]
fn spreads(alloc: Global, plan: &Plan, cube: u8) -> Steps
    ensures { IfOk result (λ v. v.items ≡ spreads_of plan.now cube) }
{
    vault_steps(alloc, plan.vaults(cube), cube)
}

fn bank_steps(alloc: Global, banks: u8, cube: u8, vault: u8) -> Steps
    ensures { IfOk result (λ v. v.items ≡ map (steps.Bank cube vault) (upto banks)) }
{
    (0..banks)
        .map(|bank| Step::Bank(cube, vault, bank))
        .collect(alloc)
}

fn lift_steps(alloc: Global, vaults: u8, cube: u8) -> Steps
    ensures { IfOk result
        (λ v. v.items ≡ map (λ vault. steps.Lift cube (lift.Vault vault)) (upto vaults)) }
{
    (0..vaults)
        .map(|vault| Step::Lift(cube, Lift::Vault(vault)))
        .collect(alloc)
}

#[tactic(auto, unfolding(crate::specs::Round::lifts_of))]
fn lifts(alloc: Global, plan: &Plan, cube: u8) -> Steps
    ensures { IfOk result (λ v. v.items ≡ lifts_of plan.now cube) }
{
    let mut lifts = lift_steps(alloc, plan.vaults(cube), cube)?;
    lifts.push(Step::Lift(cube, Lift::Registers))?;
    Ok(lifts)
}

// The banks of each vault in turn.
#[tactic(auto, unfolding(crate::specs::Round::banks_of))]
fn banks(alloc: Global, plan: &Plan, cube: u8) -> Steps
    ensures { IfOk result (λ v. v.items ≡ banks_of plan.now cube) }
{
    let banks = plan.banks(cube);
    let mut steps = Vec::new(alloc);
    for vault in 0..plan.vaults(cube) {
        if let Err(memory) = add(&mut steps, bank_steps(alloc, banks, cube, vault)) {
            return Err(memory);
        }
    }
    Ok(steps)
}

// Appends steps, if there was memory for them.
fn add(steps: &mut Vec<Step>, more: Steps) -> Result<(), AllocError>
    ensures { OnOk result (IsOkAnd more (λ v. steps.new.items ≡ steps.old.items ++ v.items)) }
{
    steps.extend_from_slice(&more?)
}

fn part_steps(alloc: Global, plan: &Plan, part: Part, cube: u8) -> Steps
    ensures { IfOk result (λ v. v.items ≡ part_of part plan.now cube) }
{
    match part {
        Part::Shifts => shifts(alloc, plan, cube),
        Part::Spreads => spreads(alloc, plan, cube),
        Part::Banks => banks(alloc, plan, cube),
        Part::Lifts => lifts(alloc, plan, cube),
    }
}

// The steps of a part of each cube, the cubes ascending.
fn each_cube(alloc: Global, plan: &Plan, part: Part) -> Steps
    ensures { IfOk result
        (λ v. v.items ≡ flat_map (part_of part plan.now) (upto (length plan.now.cubes))) }
{
    let mut steps = Vec::new(alloc);
    for cube in 0..plan.cube_count() {
        if let Err(memory) = add(&mut steps, part_steps(alloc, plan, part, cube)) {
            return Err(memory);
        }
    }
    Ok(steps)
}

// Appends the sends and the landings of a round.
fn add_flits(alloc: Global, plan: &Plan, into: &mut Vec<Step>) -> Result<(), AllocError>
    ensures { OnOk result (into.new.items ≡ into.old.items ++
        map steps.Send (upto plan.now.directions) ++
        map (λ direction. steps.Land direction zero_flit) (upto plan.now.directions)) }
{
    add(into, each_steps(alloc, Each::Send, plan.directions))?;
    add(into, each_steps(alloc, Each::Land, plan.directions))
}

// Appends what packets do in a round on their way to the banks, and in them.
fn add_ways(alloc: Global, plan: &Plan, into: &mut Vec<Step>) -> Result<(), AllocError>
    ensures { OnOk result (into.new.items ≡ into.old.items ++
        flat_map (shifts_of plan.now) (upto (length plan.now.cubes)) ++
        flat_map (spreads_of plan.now) (upto (length plan.now.cubes)) ++
        flat_map (banks_of plan.now) (upto (length plan.now.cubes))) }
{
    add(into, each_cube(alloc, plan, Part::Shifts))?;
    add(into, each_cube(alloc, plan, Part::Spreads))?;
    add(into, each_cube(alloc, plan, Part::Banks))
}

// Appends the steps of the registers in a round, and those of answers.
fn add_answers(alloc: Global, plan: &Plan, into: &mut Vec<Step>) -> Result<(), AllocError>
    ensures { OnOk result (into.new.items ≡ into.old.items ++
        map steps.Registers (upto (length plan.now.cubes)) ++
        flat_map (lifts_of plan.now) (upto (length plan.now.cubes)) ++
        map steps.Take (upto plan.now.hosts)) }
{
    add(into, each_steps(alloc, Each::Registers, plan.cube_count()))?;
    add(into, each_cube(alloc, plan, Part::Lifts))?;
    add(into, each_steps(alloc, Each::Take, plan.hosts))
}

/// The steps of a round.
#[tactic(auto, unfolding(crate::specs::Round::round_of))]
pub fn round(alloc: Global, plan: &Plan) -> Steps
    ensures { IfOk result (λ v. v.items ≡ round_of plan.now) }
{
    let mut steps = each_steps(alloc, Each::Give, plan.hosts)?;
    add_flits(alloc, plan, &mut steps)?;
    add_ways(alloc, plan, &mut steps)?;
    add_answers(alloc, plan, &mut steps)?;
    Ok(steps)
}
