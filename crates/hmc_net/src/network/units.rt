//! The step of logic units: retire.

ghost use Rattle.std.specs.Prelude.{◌≡◌};
ghost use Rattle.hmc_net.specs.Apply.{DoesStep};
ghost use Rattle.hmc_net.specs.Links.{retired_by};
ghost use Rattle.hmc_net.specs.NetState.{net_of};
ghost use Rattle.hmc_net.specs.Sees.{IsReady};
ghost use Rattle.hmc_net.specs.Went.{went_of};

use crate::went::idle;
use crate::{Network, Went};
use hmc_entries::{Cause, IdleStep, LastEntry};
use hmc_schedule::Step;
use hmc_units::Workbench;

impl<B: Workbench> Network<B> {
    // The unit of a slot is gone for good, if there is one.
    #[inline(never)]
    pub(crate) fn retire(&mut self, slot: u8) -> Went
        requires { IsReady (net_of B.slots self.old) }
        ensures does { DoesStep (net_of B.slots self.old) (net_of B.slots self.new)
            (Step.Retire slot) }
        ensures went { result ≡ went_of self.new.last }
    {
        let live = self.bench.retire(slot);
        note_retired(&mut self.last, slot, live)
    }
}

// The last entry becomes that of a retirement of a slot that has a unit, or has none.
fn note_retired(last: &mut LastEntry, slot: u8, live: bool) -> Went
    ensures entry { last.new ≡ retired_by slot live }
    ensures went { result ≡ went_of last.new }
{
    if live {
        last.retired(slot);
        Went::Done
    } else {
        idle(last, IdleStep::Retire(slot), Cause::Empty)
    }
}
