//! The step through: a packet is forwarded that is still being gathered at a port.

ghost use Rattle.std.specs.Prelude.{◌≡◌, ◌<◌, ◌*◌, length};
ghost use Rattle.hmc_packet.specs.Head.{head_in};
ghost use Rattle.hmc_net.specs.Apply.{DoesStep};
ghost use Rattle.hmc_net.specs.NetState.{net_of};
ghost use Rattle.hmc_wiring.specs.Ready.{IsPortIn};
ghost use Rattle.hmc_net.specs.Sees.{IsReady};
ghost use Rattle.hmc_net.specs.Went.{went_of};
ghost use Rattle.hmc_net.specs.Throughs.{IsHeadAt, IsFree, IsComing};
ghost use Rattle.hmc_kept.specs.Throughs.{IsOnto};

use crate::went::idle;
use crate::{Network, Went};
use hmc_entries::{Cause, IdleStep};
use hmc_kept::{may_go, pipe_of};
use hmc_packet::{Head, head_of, lng_of};
use hmc_schedule::Step;
use hmc_units::Workbench;

impl<B: Workbench> Network<B> {
    // The packet that is gathered at a port is forwarded, if there is one that may be.
    #[inline(never)]
    pub(crate) fn through(&mut self, cube: u8, port: u8) -> Went
        requires there { IsPortIn self.old.topology cube port }
        requires ready { IsReady (net_of B.slots self.old) }
        ensures does { DoesStep (net_of B.slots self.old) (net_of B.slots self.new)
            (Step.Through cube port) }
        ensures went { result ≡ went_of self.new.last }
    {
        let from = self.wiring.to_port(cube, port);
        let Some(head) = self.gathered_head(from) else {
            return idle(
                &mut self.last,
                IdleStep::Through(cube, port),
                Cause::NoPacket,
            );
        };
        let Some(onto) = self.way_on(cube, port, &head) else {
            return idle(
                &mut self.last,
                IdleStep::Through(cube, port),
                Cause::NoPacket,
            );
        };
        if !self.may_forward(from, onto, head.flits) {
            return idle(&mut self.last, IdleStep::Through(cube, port), Cause::Busy);
        }
        self.begin(cube, port, from, onto)
    }

    // The head of the packet that is gathered at the end of a direction.
    fn gathered_head(&self, from: u8) -> Option<Head>
        requires there { from < 2 * length self.now.topology.links }
        requires ready { IsReady (net_of B.slots self.now) }
        ensures { IsHeadAt (net_of B.slots self.now) from result }
    {
        let flits = self.links.through_view(from)?;
        let first = flits.first()?;
        head_of(first)
    }

    // The direction onto which a packet with this head is forwarded.
    fn way_on(&self, cube: u8, port: u8, head: &Head) -> Option<u8>
        requires there { IsPortIn self.now.topology cube port }
        requires ready { IsReady (net_of B.slots self.now) }
        ensures { IsOnto self.now.topology cube port head.now result }
    {
        let onward = self.wiring.onward_port(cube, port, head)?;
        self.wiring.from_port(cube, onward)
    }

    // Whether a packet of so many flits can be forwarded now from one direction onto another.
    fn may_forward(&self, from: u8, onto: u8, flits: u8) -> bool
        requires from { from < 2 * length self.now.topology.links }
        requires onto { onto < 2 * length self.now.topology.links }
        requires ready { IsReady (net_of B.slots self.now) }
        ensures { IsFree (net_of B.slots self.now) from onto flits result }
    {
        let forwarded = self.piped.onto(from);
        let arrived = self.links.has_arrived(from);
        let ready = self.links.through_ready(onto, flits);
        may_go(forwarded.is_some(), arrived, ready)
    }

    // The packet begins to be forwarded: its pipe has the flits that came.
    fn begin(&mut self, cube: u8, port: u8, from: u8, onto: u8) -> Went
        requires there { IsPortIn self.old.topology cube port }
        requires ready { IsReady (net_of B.slots self.old) }
        requires coming { IsComing (net_of B.slots self.old) cube port from onto }
        ensures does { DoesStep (net_of B.slots self.old) (net_of B.slots self.new)
            (Step.Through cube port) }
        ensures went { result ≡ went_of self.new.last }
    {
        let profile = self.wiring.profile(from);
        let Some(flits) = self.links.through_view(from) else {
            unreachable!()
        };
        let pipe = pipe_of(flits, profile);
        let head = flits[0];
        self.links.begin_through(onto, head, lng_of(&head));
        self.piped.begin(from, onto, pipe);
        self.last.through(cube, port, onto);
        Went::Done
    }
}
