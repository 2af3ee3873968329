//! The steps of links: send, land and unlock.

ghost use Rattle.std.specs.Prelude.{◌≡◌, ◌<◌, ℕ, List, length};
ghost use Rattle.hmc_schedule.specs.declared.step.Step.{Step};
ghost use Rattle.hmc_case.specs.declared.setup.LinkRow.{LinkRow};
ghost use Rattle.hmc_send.specs.LinkEntries.{LinkEntry};
ghost use Rattle.hmc_entries.specs.declared.entry.Entry.{Entry};
ghost use Rattle.hmc_journal.specs.Piped.{goes_on};
ghost use Rattle.hmc_kept.specs.LinkAnswers.{sent_by};
ghost use Rattle.hmc_kept.specs.Called.{taken_where};
ghost use Rattle.hmc_kept.specs.Pipes.{AreGathering, IsLastOf, forwarded_at, after_flit};
ghost use Rattle.hmc_directions.specs.Ends.{EndsHold, HoldSome, IsDirection};
ghost use Rattle.hmc_check.specs.Past.{past_of, TakesStep, IsNextOfSome};

use crate::past::Past;
use hmc_codes::Flit;
use hmc_directions::Ends;
use hmc_ends::{LinkOutcome, flit_is_bytes};
use hmc_entries::{Cause, IdleStep};
use hmc_kept::{goes_on, note_sent};
use hmc_packet::Outcome;
use hmc_units::Workbench;

impl<B: Workbench> Past<B> {
    // A flit is sent in a direction.
    pub(crate) fn send(&mut self, direction: u8)
        requires { IsNextOfSome (past_of B.slots self.old) (Step.Send direction) }
        ensures { TakesStep (past_of B.slots self.old) (past_of B.slots self.new)
            (Step.Send direction) }
    {
        let place = self.ends.through_at(direction);
        let feed = self.piped.feed(direction, place);
        let sent = self.ends.send(direction, feed);
        note_sent(&mut self.last, direction, &sent);
    }

    // The next flit of a direction lands under a mask.
    pub(crate) fn land(&mut self, direction: u8, mask: &Flit)
        requires { IsNextOfSome (past_of B.slots self.old) (Step.Land direction mask.now) }
        ensures { TakesStep (past_of B.slots self.old) (past_of B.slots self.new)
            (Step.Land direction mask.now) }
    {
        match self.ends.land(direction, mask) {
            LinkOutcome::Empty => self.last.idle(IdleStep::Land(direction), Cause::Empty),
            LinkOutcome::Passed(flit) => self.last.passed(direction, &flit),
            LinkOutcome::Came { flit, outcome } => {
                flit_is_bytes(&flit);
                self.landed(direction, &flit, outcome);
            }
        }
    }

    // A flit landed, and none passed. A packet that is accepted while it is forwarded goes on at
    // once.
    fn landed(&mut self, direction: u8, flit: &Flit, outcome: Outcome)
        requires there { direction < length self.old.piped.forwarded }
        requires ends { IsDirection self.old.ends direction }
        requires taken { HoldSome self.old.ends }
        requires gathering { AreGathering self.old.piped direction }
        requires last { IsLastOf self.old.piped direction outcome }
        ensures parts { (past_of B.slots self.new) ≡ record (past_of B.slots self.old) {
          ends = self.new.ends;
          piped = after_flit direction flit.now outcome self.old.piped;
          last = Entry.Landed direction flit.now outcome;
        } }
        ensures ends { (rows : List LinkRow) (entries : ℕ → List LinkEntry) →
            EndsHold rows self.old.ends entries → EndsHold rows self.new.ends
            (taken_where (goes_on outcome (forwarded_at self.old.piped direction))
            rows direction entries) }
    {
        let goes = goes_on(outcome, self.piped.onto(direction));
        self.piped.land(direction, flit, outcome);
        take_where(&mut self.ends, direction, goes);
        self.last.landed(direction, flit, outcome);
    }

    // The receiver of a direction loses its framing.
    pub(crate) fn unlock(&mut self, direction: u8)
        requires { IsNextOfSome (past_of B.slots self.old) (Step.Unlock direction) }
        ensures { TakesStep (past_of B.slots self.old) (past_of B.slots self.new)
            (Step.Unlock direction) }
    {
        self.ends.unlock(direction);
        self.piped.lose(direction);
        self.last.unlocked(direction);
    }
}

// Takes the front of the buffer where a direction lands, where its packet has gone on.
fn take_where(ends: &mut Ends, direction: u8, goes: bool)
    requires there { IsDirection ends.old direction }
    requires some { HoldSome ends.old }
    ensures { (rows : List LinkRow) (entries : ℕ → List LinkEntry) →
        EndsHold rows ends.old entries →
        EndsHold rows ends.new (taken_where goes rows direction entries) }
{
    if goes {
        ends.take(direction);
    }
}
