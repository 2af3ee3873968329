//! Schedules are read.

ghost use Rattle.std.specs.Prelude.{◌≡◌, ◌≤◌, ◌+◌, ◌*◌, length, option_map, IfOk, IfSome, OnOk};
ghost use Rattle.std.specs.List.{All};
ghost use Rattle.hmc_codes.specs.Limits.{most_steps};
ghost use Rattle.hmc_text.specs.InTurn.{at_line, Answers};
ghost use Rattle.hmc_schedule.specs.declared.written.Stretch.TheVariants as stretch;
ghost use Rattle.hmc_schedule.specs.Meaning.{IsMeaning};
ghost use Rattle.hmc_schedule.specs.Noise.{counted, IsNoise};
ghost use Rattle.hmc_schedule.specs.Plan.{PlanFields, IsStepOf, HasFlit, IsWorking};
ghost use Rattle.hmc_schedule.specs.Round.{repeated, round_of};
ghost use Rattle.hmc_schedule.specs.Schedule.{Progress, add_steps, add_rounds, add_one, after_meaning, after_line, schedule_of, IsProgress};
ghost use Rattle.hmc_schedule.specs.Written.{round_at, stretch_of, IsKept, IsStretch, IsRoundOf};

use crate::meaning::{Meaning, meaning_of};
use crate::noise::Noise;
use crate::round::round;
use crate::written::{KeptRound, Rounds, Stretch, Written};
use crate::{Plan, Schedule, ScheduleFault, ScheduleKind, Step};
use hmc_codes::MOST_STEPS;
use hmc_text::lines::Lines;
use std::alloc::Global;

// Appends so many steps, if there is room for them.
#[tactic(auto, unfolding(crate::specs::Schedule::add_steps))]
fn add(
    written: &mut Written,
    number: u32,
    stretch: Stretch,
    count: u128,
) -> Result<(), ScheduleFault>
    requires stretch { IsStretch written.old.kept stretch }
    requires count { count ≡ length (stretch_of written.old.kept stretch) }
    ensures value { Answers (λ _. written.new.steps) result
        (at_line number
        (add_steps written.old.steps (stretch_of written.old.kept stretch))) }
    ensures kept { written.new.kept ≡ written.old.kept }
{
    if count > u128::from(MOST_STEPS - written.len()) {
        return Err(ScheduleFault::Fault {
            line: number,
            kind: ScheduleKind::Steps,
        });
    }
    written.append(stretch, count as u32)?;
    Ok(())
}

// The noise after so many rounds, each with this number of landings.
fn later(noise: Noise, count: u32, lands: u8) -> Noise
    requires { noise.count + count * lands ≤ most_steps }
    ensures { result ≡ counted (count * lands) noise }
{
    let every = noise.every;
    let mask = noise.mask;
    let count = noise.count + count * u32::from(lands);
    Noise { every, mask, count }
}

// The noise, if there is any, after so many rounds.
fn later_if(noise: Option<Noise>, count: u32, lands: u8) -> Option<Noise>
    requires { IfSome noise (λ noise. noise.count + count * lands ≤ most_steps) }
    ensures { result ≡ option_map (counted (count * lands)) noise }
{
    match noise {
        Some(noise) => Some(later(noise, count, lands)),
        None => None,
    }
}

// Appends rounds, if there is room for them. Noise counts their landings.
#[tactic(auto, unfolding(crate::specs::Schedule::add_rounds))]
fn add_rounds(
    written: &mut Written,
    noise: &mut Option<Noise>,
    round: KeptRound,
    number: u32,
    count: u32,
) -> Result<(), ScheduleFault>
    requires kept { IsKept written.old.kept round }
    requires noise { IfSome noise.old (IsNoise (length written.old.steps)) }
    ensures value { Answers (λ _. record { steps = written.new.steps; noise = noise.new }) result
        (at_line number
        (add_rounds (record { steps = written.old.steps; noise = noise.old })
        (repeated count (round_at written.old.kept round)))) }
    ensures kept { written.new.kept ≡ written.old.kept }
{
    let more = u128::from(count) * round.len as u128;
    let rounds = Rounds {
        round,
        count,
        noise: *noise,
    };
    add(written, number, Stretch::Many(rounds), more)?;
    *noise = later_if(*noise, count, round.lands);
    Ok(())
}

// Appends one step, if there is room for it.
#[tactic(auto, unfolding(crate::specs::Schedule::add_one))]
fn add_one(
    written: &mut Written,
    noise: &Option<Noise>,
    number: u32,
    step: Step,
) -> Result<(), ScheduleFault>
    ensures value { Answers (λ _. record { steps = written.new.steps; noise = noise.now }) result
        (at_line number
        (add_one (record { steps = written.old.steps; noise = noise.now }) step)) }
    ensures kept { written.new.kept ≡ written.old.kept }
{
    let _ = noise;
    add(written, number, Stretch::One(step), 1)
}

// Applies what a line states.
#[tactic(auto, unfolding(crate::specs::Round::rounds_of))]
fn follow(
    plan: &Plan,
    round: KeptRound,
    written: &mut Written,
    noise: &mut Option<Noise>,
    number: u32,
    meaning: Meaning,
) -> Result<(), ScheduleFault>
    requires round { IsRoundOf plan.now written.old.kept round }
    requires read { IsProgress plan.now
        (record { steps = written.old.steps; noise = noise.old }) }
    ensures value { Answers (λ _. record { steps = written.new.steps; noise = noise.new }) result
        (at_line number
        (after_meaning plan.now (record { steps = written.old.steps; noise = noise.old })
        meaning)) }
    ensures kept { written.new.kept ≡ written.old.kept }
{
    match meaning {
        Meaning::Nothing => Ok(()),
        Meaning::One(step) => add_one(written, noise, number, step),
        Meaning::Rounds(count) => add_rounds(written, noise, round, number, count),
        Meaning::Noisy(begun) => {
            *noise = begun;
            Ok(())
        }
    }
}

// Reads the next line.
#[tactic(auto, unfolding(crate::specs::Schedule::after_line))]
fn read_line(
    plan: &Plan,
    round: KeptRound,
    written: &mut Written,
    noise: &mut Option<Noise>,
    number: u32,
    line: &[u8],
) -> Result<(), ScheduleFault>
    requires round { IsRoundOf plan.now written.old.kept round }
    requires read { IsProgress plan.now
        (record { steps = written.old.steps; noise = noise.old }) }
    ensures value { Answers (λ _. record { steps = written.new.steps; noise = noise.new }) result
        (at_line number
        (after_line plan.now (record { steps = written.old.steps; noise = noise.old })
        line.now)) }
    ensures kept { written.new.kept ≡ written.old.kept }
    ensures read { OnOk result (IsProgress plan.now
        (record { steps = written.new.steps; noise = noise.new })) }
{
    match meaning_of(plan, line) {
        Ok(meaning) => follow(plan, round, written, noise, number, meaning),
        Err(kind) => Err(ScheduleFault::Fault { line: number, kind }),
    }
}

impl Schedule {
    /// Reads a schedule for a network with these parts. The fault is the first one: its line,
    /// counted from 1, and what is wrong there, found word by word from left to right, and last
    /// whether the steps are too many. Lines after line 4,294,967,295 have that number too.
    #[tactic(auto, unfolding(crate::specs::Schedule::schedule_of))]
    pub fn parse(alloc: Global, text: &str, plan: &Plan) -> Result<Schedule, ScheduleFault>
        ensures exact { Answers (λ schedule. schedule) result (schedule_of plan.now text.now) }

        // There are not too many steps, and each names parts that the plan has.
        ensures few { IfOk result (λ schedule. length schedule ≤ most_steps) }
        ensures within { IfOk result (All (IsStepOf plan.now)) }

        // Each mask is as long as a flit.
        ensures masks { IfOk result (All HasFlit) }
    {
        let mut written = Written::new(alloc);
        let steps = round(alloc, plan)?;
        let kept = written.keep(&steps, plan.directions)?;
        let mut noise = None;
        let mut left = Lines::of(text);
        'lines: while let Some((number, line)) = left.next_line() {
            if let Err(fault) = read_line(plan, kept, &mut written, &mut noise, number, line) {
                return Err(fault);
            }
        }
        Ok(Schedule::of(alloc, written))
    }
}
