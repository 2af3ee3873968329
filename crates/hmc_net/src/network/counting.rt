//! Counting the steps.

ghost use Rattle.std.specs.Prelude.{◌≡◌, ◌<◌, ◌+◌, ◌^◌, ℕ};
ghost use Rattle.hmc_entries.specs.Event.{event_of, IsLongFlit};
ghost use Rattle.hmc_journal.specs.StepView.{StepView};
ghost use Rattle.hmc_net.specs.NetState.{net_of};
ghost use Rattle.hmc_wiring.specs.Ready.{IsStepFor};
ghost use Rattle.hmc_net.specs.Sees.{Sees, IsReady};
ghost use Rattle.hmc_net.specs.Went.{went_of};
ghost use Rattle.hmc_tally.specs.Tally.{tallied, step_changes, unlocks_good, IsWithin};

use crate::{Network, Went};
use hmc_schedule::Step;
use hmc_tally::{is_good, step_changes};
use hmc_units::Workbench;

impl<B: Workbench> Network<B> {
    // Whether the receiver that a step unlocks is good.
    #[inline(always)]
    pub(crate) fn unlocks_good(&self, step: &Step) -> bool
        requires there { IsStepFor self.now.topology step.now }
        requires ready { IsReady (net_of B.slots self.now) }
        ensures { (view : StepView) → Sees (net_of B.slots self.now) view →
            result ≡ unlocks_good view step.now }
    {
        match step {
            Step::Unlock(direction) => is_good(self.links.mode(*direction)),
            _ => false,
        }
    }

    // Counts the step of the last entry, which went so. Of an idle step nothing is counted.
    #[inline(always)]
    pub(crate) fn count(&mut self, step: &Step, went: Went, was_good: bool)
        requires few { (most : ℕ) × (most + 1 < 2 ^ 32) × IsWithin most self.old.tally }
        requires went { went ≡ went_of self.old.last }
        ensures counted { self.new ≡ record self.old { tally = self.new.tally } }
        ensures tally { self.new.tally ≡ tallied (step_changes step.now) was_good
            (event_of self.old.last) self.old.tally }
        ensures within { (most : ℕ) → IsWithin most self.old.tally →
            IsWithin (most + 1) self.new.tally }
        ensures long { IsLongFlit self.old.last }
    {
        self.last.flit_is_long();
        if let Went::Idle(_) = went {
            return;
        }
        let event = self.last.event();
        self.tally.add(event, step_changes(step), was_good);
    }
}
