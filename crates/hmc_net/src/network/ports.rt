//! The steps at the ports of cubes: shift and lift.

ghost use Rattle.std.specs.Prelude.{◌≡◌, ◌<◌, Some, None};
ghost use Rattle.hmc_codes.specs.declared.place.Place.TheVariants as places;
ghost use Rattle.hmc_journal.specs.Links.{direction_to};
ghost use Rattle.hmc_journal.specs.Setup.{cubes_in};
ghost use Rattle.hmc_net.specs.Apply.{DoesStep, to_of};
ghost use Rattle.hmc_net.specs.Ports.{HasEntrance, IsLeaving, IsLifting, IsWayOut};
ghost use Rattle.hmc_kept.specs.Ways.{IsInner};
ghost use Rattle.hmc_links.specs.LinkList.{IsFrontAt};
ghost use Rattle.hmc_net.specs.NetState.{net_of, cube_in};
ghost use Rattle.hmc_wiring.specs.Ready.{IsPortIn, IsLiftIn};
ghost use Rattle.hmc_net.specs.Sees.{IsReady};
ghost use Rattle.hmc_net.specs.Went.{went_of};

use crate::went::idle;
use crate::{Network, Went};
use hmc_codes::Lift;
use hmc_crossbar::To;
use hmc_entries::{Cause, Goal, IdleStep};
use hmc_schedule::Step;
use hmc_units::Workbench;

impl<B: Workbench> Network<B> {
    // The front of a port's buffer goes on, or is dropped.
    #[inline(always)]
    pub(crate) fn shift(&mut self, cube: u8, port: u8) -> Went
        requires there { IsPortIn self.old.topology cube port }
        requires ready { IsReady (net_of B.slots self.old) }
        ensures does { DoesStep (net_of B.slots self.old) (net_of B.slots self.new)
            (Step.Shift cube port) }
        ensures went { result ≡ went_of self.new.last }
    {
        let direction = self.wiring.to_port(cube, port);
        let Some(_) = self.links.front_ref(direction) else {
            return idle(&mut self.last, IdleStep::Shift(cube, port), Cause::Empty);
        };
        self.shift_front(cube, port, direction)
    }

    // The same, of the front of the buffer at the end of this direction. It is out of the way of
    // steps that find none.
    #[inline(never)]
    fn shift_front(&mut self, cube: u8, port: u8, direction: u8) -> Went
        requires there { IsPortIn self.old.topology cube port }
        requires ready { IsReady (net_of B.slots self.old) }
        requires ends { direction_to (net_of B.slots self.old).topology (places.Port cube port)
            ≡ Some direction }
        requires some { IsFrontAt (net_of B.slots self.old).links direction None → ⊥ }
        ensures does { DoesStep (net_of B.slots self.old) (net_of B.slots self.new)
            (Step.Shift cube port) }
        ensures went { result ≡ went_of self.new.last }
    {
        let Some(front) = self.links.front_ref(direction) else {
            unreachable!()
        };
        let to = self.wiring.goal(cube, front);
        match to {
            To::Vault(vault) => self.shift_in(cube, port, direction, Goal::Vault(vault)),
            To::Registers => self.shift_in(cube, port, direction, Goal::Registers),
            To::Port(out) => self.shift_out(cube, port, direction, out),
            To::Nowhere => {
                self.links.take(direction);
                self.last.dropped(cube, port);
                Went::Done
            }
        }
    }

    // The front of a port's buffer goes into the cube, to this goal.
    #[inline(always)]
    fn shift_in(&mut self, cube: u8, port: u8, direction: u8, goal: Goal) -> Went
        requires there { IsPortIn self.old.topology cube port }
        requires ready { IsReady (net_of B.slots self.old) }
        requires leaving { IsLeaving (net_of B.slots self.old) cube port direction goal }
        requires inner { IsInner goal }
        ensures does { DoesStep (net_of B.slots self.old) (net_of B.slots self.new)
            (Step.Shift cube port) }
        ensures went { result ≡ went_of self.new.last }
    {
        if !self.cubes[usize::from(cube)].room(to_of(goal)) {
            return idle(&mut self.last, IdleStep::Shift(cube, port), Cause::Full);
        }
        self.move_in(cube, port, direction, goal)
    }

    // The same, where there is room for it.
    #[inline(never)]
    fn move_in(&mut self, cube: u8, port: u8, direction: u8, goal: Goal) -> Went
        requires there { IsPortIn self.old.topology cube port }
        requires ready { IsReady (net_of B.slots self.old) }
        requires leaving { IsLeaving (net_of B.slots self.old) cube port direction goal }
        requires inner { IsInner goal }
        requires room { HasEntrance (cube_in (net_of B.slots self.old).cubes cube) (to_of goal) }
        ensures does { DoesStep (net_of B.slots self.old) (net_of B.slots self.new)
            (Step.Shift cube port) }
        ensures went { result ≡ went_of self.new.last }
    {
        let to = to_of(goal);
        let Some(front) = self.links.front_ref(direction) else {
            unreachable!()
        };
        let owner = &mut self.cubes[usize::from(cube)];
        owner.invariant();
        owner.put(to, front);
        self.links.take(direction);
        self.last.shifted(cube, port, goal);
        Went::Done
    }

    // The front of a port's buffer goes on through another port.
    #[inline(always)]
    fn shift_out(&mut self, cube: u8, port: u8, direction: u8, out: u8) -> Went
        requires there { IsPortIn self.old.topology cube port }
        requires ready { IsReady (net_of B.slots self.old) }
        requires leaving { IsLeaving (net_of B.slots self.old) cube port direction
            (Goal.Port out) }
        ensures does { DoesStep (net_of B.slots self.old) (net_of B.slots self.new)
            (Step.Shift cube port) }
        ensures went { result ≡ went_of self.new.last }
    {
        let Some(onward) = self.room_through(cube, out) else {
            return idle(&mut self.last, IdleStep::Shift(cube, port), Cause::Full);
        };
        self.move_out(cube, port, direction, out, onward)
    }

    // The same, onto the direction that starts there and has room for it.
    #[inline(never)]
    fn move_out(&mut self, cube: u8, port: u8, direction: u8, out: u8, onward: u8) -> Went
        requires there { IsPortIn self.old.topology cube port }
        requires ready { IsReady (net_of B.slots self.old) }
        requires leaving { IsLeaving (net_of B.slots self.old) cube port direction
            (Goal.Port out) }
        requires way { IsWayOut (net_of B.slots self.old) cube out (Some onward) }
        ensures does { DoesStep (net_of B.slots self.old) (net_of B.slots self.new)
            (Step.Shift cube port) }
        ensures went { result ≡ went_of self.new.last }
    {
        let Some(front) = self.links.front(direction) else {
            unreachable!()
        };
        self.links.take(direction);
        self.links.hand(onward, &front);
        self.last.shifted(cube, port, Goal::Port(out));
        Went::Done
    }

    // The direction that starts at a port, if its output queue has room.
    fn room_through(&self, cube: u8, port: u8) -> Option<u8>
        requires there { cube < cubes_in self.now.topology }
        requires ready { IsReady (net_of B.slots self.now) }
        ensures { IsWayOut (net_of B.slots self.now) cube port result }
    {
        let direction = self.wiring.from_port(cube, port)?;
        if self.links.room(direction) {
            Some(direction)
        } else {
            None
        }
    }

    // An answer goes to the output queue of the port towards its host.
    #[inline(always)]
    pub(crate) fn lift(&mut self, cube: u8, from: Lift) -> Went
        requires there { IsLiftIn self.old.topology cube from }
        requires ready { IsReady (net_of B.slots self.old) }
        ensures does { DoesStep (net_of B.slots self.old) (net_of B.slots self.new)
            (Step.Lift cube from) }
        ensures went { result ≡ went_of self.new.last }
    {
        let Some(front) = self.cubes[usize::from(cube)].lift_front_ref(from) else {
            return idle(&mut self.last, IdleStep::Lift(cube, from), Cause::Empty);
        };
        let port = self.wiring.port_towards(cube, front.slid);
        let Some(onward) = self.room_through(cube, port) else {
            return idle(&mut self.last, IdleStep::Lift(cube, from), Cause::Full);
        };
        self.lift_out(cube, from, port, onward)
    }

    // The front of the answers goes to the output queue of the direction that starts at a port.
    #[inline(never)]
    fn lift_out(&mut self, cube: u8, from: Lift, port: u8, onward: u8) -> Went
        requires there { IsLiftIn self.old.topology cube from }
        requires ready { IsReady (net_of B.slots self.old) }
        requires lifting { IsLifting (net_of B.slots self.old) cube from port onward }
        ensures does { DoesStep (net_of B.slots self.old) (net_of B.slots self.new)
            (Step.Lift cube from) }
        ensures went { result ≡ went_of self.new.last }
    {
        let Some(front) = self.cubes[usize::from(cube)].lift_front_ref(from) else {
            unreachable!()
        };
        self.links.hand(onward, front);
        let owner = &mut self.cubes[usize::from(cube)];
        owner.invariant();
        owner.drop_lifted(from);
        self.last.lifted(cube, from, port);
        Went::Done
    }
}

// The place in a cube that a goal is.
fn to_of(goal: Goal) -> To
    ensures { result ≡ to_of goal }
{
    match goal {
        Goal::Vault(vault) => To::Vault(vault),
        Goal::Registers => To::Registers,
        Goal::Port(port) => To::Port(port),
    }
}
