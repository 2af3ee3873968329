//! The step through: a packet goes on that is still being gathered at a port.

ghost use Rattle.std.specs.Prelude.{◌<◌, length};
ghost use Rattle.hmc_schedule.specs.declared.step.Step.{Step};
ghost use Rattle.hmc_journal.specs.Setup.{cubes_in};
ghost use Rattle.hmc_kept.specs.Throughs.{IsOnto};
ghost use Rattle.hmc_check.specs.Moving.{IsHeadAt, IsFree, IsComing};
ghost use Rattle.hmc_check.specs.Past.{past_of, TakesStep, IsNextOfSome};

use crate::past::Past;
use hmc_entries::{Cause, IdleStep};
use hmc_kept::{may_go, pipe_of};
use hmc_packet::{Head, head_of, lng_of};
use hmc_units::Workbench;

impl<B: Workbench> Past<B> {
    // The packet that is gathered at a port goes on, if there is one that may.
    pub(crate) fn through(&mut self, cube: u8, port: u8)
        requires { IsNextOfSome (past_of B.slots self.old) (Step.Through cube port) }
        ensures { TakesStep (past_of B.slots self.old) (past_of B.slots self.new)
            (Step.Through cube port) }
    {
        let from = self.wiring.to_port(cube, port);
        let Some(head) = self.gathered_head(from) else {
            self.last
                .idle(IdleStep::Through(cube, port), Cause::NoPacket);
            return;
        };
        let Some(onto) = self.way_on(cube, port, &head) else {
            self.last
                .idle(IdleStep::Through(cube, port), Cause::NoPacket);
            return;
        };
        if !self.may_forward(from, onto, head.flits) {
            self.last.idle(IdleStep::Through(cube, port), Cause::Busy);
            return;
        }
        self.forward(cube, port, from, onto);
    }

    // The head of the packet that is gathered where a direction lands.
    fn gathered_head(&self, from: u8) -> Option<Head>
        requires there { from < length self.now.ends }
        requires some { (step : Step) × IsNextOfSome (past_of B.slots self.now) step }
        ensures { IsHeadAt (past_of B.slots self.now) from result }
    {
        let flits = self.ends.gathered(from)?;
        head_of(flits.first()?)
    }

    // The direction onto which a packet with this head goes on.
    fn way_on(&self, cube: u8, port: u8, head: &Head) -> Option<u8>
        requires { cube < cubes_in self.now.topology }
        ensures { IsOnto self.now.topology cube port head.now result }
    {
        let onward = self.wiring.onward_port(cube, port, head)?;
        self.wiring.from_port(cube, onward)
    }

    // Whether a packet of so many flits can go on now from one direction onto another.
    fn may_forward(&self, from: u8, onto: u8, flits: u8) -> bool
        requires from { from < length self.now.ends }
        requires onto { onto < length self.now.ends }
        requires some { (step : Step) × IsNextOfSome (past_of B.slots self.now) step }
        ensures { IsFree (past_of B.slots self.now) from onto flits result }
    {
        let forwarded = self.piped.onto(from);
        let arrived = self.ends.has_arrived(from);
        let ready = self.ends.through_ready(onto, flits);
        may_go(forwarded.is_some(), arrived, ready)
    }

    // The packet goes on, and its pipe has the flits that came.
    fn forward(&mut self, cube: u8, port: u8, from: u8, onto: u8)
        requires next { IsNextOfSome (past_of B.slots self.old) (Step.Through cube port) }
        requires coming { IsComing (past_of B.slots self.old) cube port from onto }
        ensures { TakesStep (past_of B.slots self.old) (past_of B.slots self.new)
            (Step.Through cube port) }
    {
        let profile = self.wiring.profile(from);
        let Some(flits) = self.ends.gathered(from) else {
            unreachable!()
        };
        let pipe = pipe_of(flits, profile);
        let head = flits[0];
        self.ends.begin_through(onto, head, lng_of(&head));
        self.piped.begin(from, onto, pipe);
        self.last.through(cube, port, onto);
    }
}
