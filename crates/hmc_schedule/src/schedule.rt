//! Schedules.

ghost use Rattle.std.specs.Prelude.{◌≡◌, ◌<◌, ◌≤◌, ◌+◌, ◌*◌, ◌++◌, [], length, option_map, slice_get, Some, IfSome, OnOk, OnErr};
ghost use Rattle.std.specs.List.{All};
ghost use Rattle.hmc_codes.specs.Limits.{most_steps};
ghost use Rattle.hmc_codes.specs.Flit.{IsFlit};
ghost use Rattle.hmc_schedule.specs.Plan.{IsStepOf, HasFlit};
ghost use Rattle.hmc_schedule.specs.Noise.{new_noise, noisy_if};
ghost use Rattle.hmc_schedule.specs.Round.{round_of, rounds_of};
ghost use Rattle.hmc_schedule.specs.RoundsLeft.{steps_left};
ghost use Rattle.hmc_schedule.specs.Written.{IsRoundOf};
ghost use Rattle.hmc_schedule.specs.Schedule.{IsSchedule};

use crate::noise::Noise;
use crate::round::round;
use crate::rounds_left::RoundsLeft;
use crate::steps_left::StepsLeft;
use crate::written::{Rounds, Stretch, Written};
use crate::{Plan, Step};
use hmc_codes::{Flit, Memory};
use std::alloc::Global;
use std::marker::Model;

/// At most `MOST_STEPS` steps, in order, whose masks are 16 bytes. Contracts see them as a list. It
/// takes memory for each line that states steps and for one round, and for a round at each call of
/// `rounds`.
#[derive(Drop)]
pub struct Schedule {
    alloc: Global,
    written: Written,
}

impl Model for Schedule {
    ghost use Rattle.std.specs.Prelude.{List};
    ghost use Rattle.hmc_schedule.specs.declared.step.Step.{Step};
    ghost use Rattle.hmc_schedule.specs.Schedule.{IsSchedule};

    ghost Value = { List Step };

    ghost view = { λ s. s.written.steps };

    ghost invariant = { λ s. IsSchedule s.written.steps };
}

// Noise of this number and mask that has counted nothing yet.
fn new_noise(noise: Option<(u32, Flit)>) -> Option<Noise>
    ensures value { result ≡ option_map new_noise noise }
    ensures mask { IfSome result (λ noise. IsFlit noise.mask) }
{
    match noise {
        Some(pair) => {
            let every = pair.0;
            let mask = pair.1;
            let count = 0;
            Some(Noise { every, mask, count })
        }
        None => None,
    }
}

impl Schedule {
    pub(crate) fn of(alloc: Global, written: Written) -> Schedule
        requires { All HasFlit written.steps }
        ensures steps { result ≡ written.steps }
        ensures few { length result ≤ most_steps }
    {
        let _ = written.len();
        Schedule { alloc, written }
    }

    /// A schedule without steps. It takes no memory.
    pub fn new(alloc: Global) -> Schedule
        ensures { result ≡ [] }
    {
        Schedule {
            alloc,
            written: Written::new(alloc),
        }
    }

    /// Does nothing. Its contract is what every schedule keeps.
    pub fn invariant(&self)
        ensures { IsSchedule self.now }
    {
        let _ = &self.written;
    }

    /// The number of steps.
    pub fn len(&self) -> u32
        ensures { result ≡ length self.now }
    {
        self.written.len()
    }

    /// All steps in their order, by rounds.
    pub fn in_rounds(&self) -> RoundsLeft<'_>
        ensures { steps_left result [] ≡ self.now }
    {
        self.written.in_rounds()
    }

    /// All steps in their order, to be taken off one after another.
    pub fn into_steps(self) -> StepsLeft
        ensures { result.steps ≡ self }
    {
        let Schedule { alloc: _, written } = self;
        StepsLeft::of(written)
    }

    /// The step at this place, counted from 0 and below the length. It is found in as many tests as
    /// the number of segments has binary digits.
    pub fn step(&self, at: u32) -> Step
        requires { at < length self.now }
        ensures { slice_get self.now at ≡ Some result }
    {
        self.written.step(at)
    }

    /// Appends n rounds of a network with these parts, with noise of this number and mask whose
    /// count begins at 0, or without. Both numbers are at least 1, and the schedule then has at
    /// most `MOST_STEPS` steps. Where it is out of memory nothing changes.
    pub fn rounds(&mut self, plan: &Plan, n: u32, noise: Option<(u32, Flit)>) -> Result<(), Memory>
        requires some { 1 ≤ n }
        requires noise { IfSome noise (λ noise. 1 ≤ noise.0) }
        requires room { length self.old + n * length (round_of plan.now) ≤ most_steps }
        ensures ok { OnOk result
            (self.new ≡ self.old ++ noisy_if (option_map new_noise noise) (rounds_of plan.now n)) }
        ensures err { OnErr result (self.new ≡ self.old) }

        // Each step of the rounds names parts that the plan has. Each mask is as long as a flit.
        ensures within { All (IsStepOf plan.now) self.old
            → OnOk result (All (IsStepOf plan.now) self.new) }
        ensures masks { All HasFlit self.old → OnOk result (All HasFlit self.new) }
    {
        let steps = round(self.alloc, plan)?;
        let kept = self.written.keep(&steps, plan.directions)?;
        let rounds = Rounds {
            round: kept,
            count: n,
            noise: new_noise(noise),
        };
        self.written
            .append(Stretch::Many(rounds), n * steps.len() as u32)?;
        Ok(())
    }
}
