//! Steps that are laid down ahead.

ghost use Rattle.std.specs.Prelude.{◌≡◌, ◌∷◌, [], List, drop, length, slice_get, take, IfOk, IfSome};
ghost use Rattle.std.specs.List.{All};
ghost use Rattle.hmc_schedule.specs.Plan.{IsStepOf};
ghost use Rattle.hmc_schedule.specs.Schedule.{schedule_of};
ghost use Rattle.hmc_schedule.specs.StepsLeft.{TakesFirst};
ghost use Rattle.hmc_schedule.specs.declared.step.Step.{Step};
ghost use Rattle.hmc_net.specs.Went.{went_of};
ghost use Rattle.hmc_session.specs.Ahead.{StepsBy, IsWithoutStep};
ghost use Rattle.hmc_session.specs.Session.{session_of};
ghost use Rattle.hmc_text.specs.InTurn.{Answers};

use crate::{NotTaken, Session};
use hmc_net::Went;
use hmc_schedule::{Schedule, ScheduleFault, Step, StepsLeft};
use hmc_units::Workbench;
use std::alloc::Global;
use std::marker::Model;

/// Steps that are laid down ahead, in order. Contracts see the list of those that are left.
#[derive(Drop)]
pub struct Laid {
    left: StepsLeft,
}

impl Model for Laid {
    ghost use Rattle.std.specs.Prelude.{List};
    ghost use Rattle.hmc_schedule.specs.declared.step.Step.{Step};

    ghost Value = { List Step };

    ghost view = { λ l. l.left.steps };
}

impl Laid {
    /// The steps of a schedule.
    pub fn new(steps: Schedule) -> Self
        ensures { result ≡ steps }
    {
        Laid {
            left: steps.into_steps(),
        }
    }

    /// The number of steps that are left.
    pub fn len(&self) -> u32
        ensures { result ≡ length self.now }
    {
        self.left.len()
    }

    /// The next step, if one is left. It stays on the list.
    pub fn first(&self) -> Option<Step>
        ensures { result ≡ slice_get self.now 0 }
    {
        self.left.first()
    }

    /// Takes the next step off the list, if one is left.
    #[inline(always)]
    pub fn take(&mut self) -> Option<Step>
        ensures { TakesFirst self.old result self.new }
    {
        self.left.take()
    }

    /// Brings steps that are kept one after another to hand, if none is at hand and such follow.
    #[inline(always)]
    pub(crate) fn bring(&mut self)
        ensures { self.new ≡ self.old }
    {
        self.left.bring();
    }

    /// The steps at hand: the first ones of the list. They stay on it.
    #[inline(always)]
    pub(crate) fn at_hand(&self) -> &[Step]
        ensures { take (length result.now) self.now ≡ result.now }
    {
        self.left.at_hand()
    }

    /// Takes so many steps off the list, or all where fewer are left.
    #[inline(always)]
    pub(crate) fn pass(&mut self, count: usize)
        ensures { self.new ≡ drop count self.old }
    {
        self.left.pass(count);
    }
}

impl<B: Workbench> Session<B> {
    /// Lays down the steps of a schedule for the parts of the session. The fault is its first one:
    /// its line, counted from 1, and what is wrong there.
    pub fn lay(&self, alloc: Global, text: &str) -> Result<Laid, ScheduleFault>
        ensures exact { Answers (λ laid. laid) result (schedule_of self.now.plan text.now) }
        ensures within { IfOk result (All (IsStepOf self.now.plan)) }
    {
        let steps = Schedule::parse(alloc, text, self.plan())?;
        Ok(Laid::new(steps))
    }

    /// Takes the next of the steps that are laid down. `None` if none is left. A step that is
    /// refused is off the list too.
    #[inline(always)]
    pub fn next(&mut self, laid: &mut Laid) -> Result<Option<Went>, NotTaken>
        // Without a step nothing changes.
        ensures none { laid.old ≡ [] → IsWithoutStep result
            (session_of B.slots self.old) (session_of B.slots self.new) laid.new }

        // A step is taken or refused as by `step`.
        ensures steps { (step : Step) (rest : List Step) → laid.old ≡ step ∷ rest →
            (laid.new ≡ rest) × StepsBy
            (session_of B.slots self.old) (session_of B.slots self.new) step result }
        ensures last { IfOk result (λ taken. IfSome taken (λ went.
            went ≡ went_of self.new.network.last)) }
        ensures finished { self.new.finished ≡ self.old.finished }
        ensures plan { self.new.plan ≡ self.old.plan }
    {
        if let Some(place) = laid.left.take_kept() {
            return self.step_on(laid.left.kept_step(place));
        }
        self.next_found(laid)
    }

    // The same, out of the way of steps that are at hand.
    #[inline(never)]
    pub(crate) fn next_found(&mut self, laid: &mut Laid) -> Result<Option<Went>, NotTaken>
        ensures none { laid.old ≡ [] → IsWithoutStep result
            (session_of B.slots self.old) (session_of B.slots self.new) laid.new }
        ensures steps { (step : Step) (rest : List Step) → laid.old ≡ step ∷ rest →
            (laid.new ≡ rest) × StepsBy
            (session_of B.slots self.old) (session_of B.slots self.new) step result }
        ensures last { IfOk result (λ taken. IfSome taken (λ went.
            went ≡ went_of self.new.network.last)) }
        ensures finished { self.new.finished ≡ self.old.finished }
        ensures plan { self.new.plan ≡ self.old.plan }
    {
        let Some(step) = laid.take() else {
            return Ok(None);
        };
        self.step_on(&step)
    }

    // Takes a step, if nothing refuses it.
    #[inline(always)]
    fn step_on(&mut self, step: &Step) -> Result<Option<Went>, NotTaken>
        ensures steps { StepsBy
            (session_of B.slots self.old) (session_of B.slots self.new) step.now result }
        ensures last { IfOk result (λ taken. IfSome taken (λ went.
            went ≡ went_of self.new.network.last)) }
        ensures finished { self.new.finished ≡ self.old.finished }
        ensures plan { self.new.plan ≡ self.old.plan }
    {
        match self.step(step) {
            Ok(went) => Ok(Some(went)),
            Err(refusal) => Err(refusal),
        }
    }
}
