//! The steps of hosts.

ghost use Rattle.std.specs.Prelude.{◌≡◌, ◌<◌, ℕ, Some, None, true};
ghost use Rattle.hmc_schedule.specs.declared.step.Step.{Step};
ghost use Rattle.hmc_codes.specs.declared.place.Place.TheVariants as places;
ghost use Rattle.hmc_host.specs.Give.{give_says, hindrance_of};
ghost use Rattle.hmc_journal.specs.Answers.{took_entry};
ghost use Rattle.hmc_journal.specs.Links.{direction_to};
ghost use Rattle.hmc_journal.specs.Setup.{direction_from};
ghost use Rattle.hmc_kept.specs.Hosts.{cause_by, host_in};
ghost use Rattle.hmc_directions.specs.Ends.{EndsHold};
ghost use Rattle.hmc_kept.specs.ByDirection.{HasRoom};
ghost use Rattle.hmc_check.specs.Past.{past_of, TakesStep, IsNextOfSome};

use crate::past::Past;
use hmc_entries::{Cause, IdleStep, LastEntry};
use hmc_host::{Given, Hindrance, Settled};
use hmc_units::Workbench;

impl<B: Workbench> Past<B> {
    // The host gives its next request to its link.
    pub(crate) fn give(&mut self, host: u8)
        requires { IsNextOfSome (past_of B.slots self.old) (Step.Give host) }
        ensures { TakesStep (past_of B.slots self.old) (past_of B.slots self.new) (Step.Give host) }
    {
        let direction = self.wiring.from_host(host);
        let room = self.ends.has_room(direction);
        if let Some(hindrance) = self.hosts[usize::from(host)].hindrance(room) {
            self.last.idle(IdleStep::Give(host), cause_of(hindrance));
            return;
        }
        self.give_next(host, direction);
    }

    fn give_next(&mut self, host: u8, direction: u8)
        requires next { IsNextOfSome (past_of B.slots self.old) (Step.Give host) }
        requires from { direction_from self.old.topology (places.Host host) ≡ Some direction }
        requires room { HasRoom EndsHold self.old.ends direction true }
        requires none { hindrance_of (give_says (host_in self.old.hosts host) true) ≡ None }
        ensures { TakesStep (past_of B.slots self.old) (past_of B.slots self.new) (Step.Give host) }
    {
        match self.hosts[usize::from(host)].give(true) {
            Given::Gave {
                packet,
                request,
                tag,
                poisoned,
            } => {
                request.invariant();
                self.ends.hand(direction, packet);
                self.last.gave(host, tag, poisoned, &request);
            }
            Given::Ended | Given::Fence | Given::Tags | Given::Full => unreachable!(),
        }
    }

    // The host takes the answer of the packet that came first, or drops that.
    pub(crate) fn take(&mut self, host: u8)
        requires { IsNextOfSome (past_of B.slots self.old) (Step.Take host) }
        ensures { TakesStep (past_of B.slots self.old) (past_of B.slots self.new) (Step.Take host) }
    {
        let direction = self.wiring.to_host(host);
        if !self.ends.has_arrived(direction) {
            self.last.idle(IdleStep::Take(host), Cause::Empty);
            return;
        }
        self.take_front(host, direction);
    }

    fn take_front(&mut self, host: u8, direction: u8)
        requires next { IsNextOfSome (past_of B.slots self.old) (Step.Take host) }
        requires to { direction_to self.old.topology (places.Host host) ≡ Some direction }
        ensures { TakesStep (past_of B.slots self.old) (past_of B.slots self.new) (Step.Take host) }
    {
        let Some(front) = self.ends.front(direction) else {
            self.last.idle(IdleStep::Take(host), Cause::Empty);
            return;
        };
        self.ends.take(direction);
        let settled = self.hosts[usize::from(host)].settle(&front);
        note_settled(&mut self.last, host, &settled);
    }
}

// The last entry becomes that of a take.
fn note_settled(last: &mut LastEntry, host: u8, settled: &Settled)
    ensures { last.new ≡ took_entry host settled.now }
{
    match settled {
        Settled::Discarded => last.discarded(host),
        Settled::Took { tag, answer } => last.took(host, *tag, answer),
    }
}

// The cause that a host gives nothing.
fn cause_of(hindrance: Hindrance) -> Cause
    ensures { result ≡ cause_by hindrance }
{
    match hindrance {
        Hindrance::Ended => Cause::Ended,
        Hindrance::Fence => Cause::Fence,
        Hindrance::Tags => Cause::Tags,
        Hindrance::Full => Cause::Full,
    }
}
