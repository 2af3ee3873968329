//! The steps at the ports of cubes: shift and lift.

ghost use Rattle.std.specs.Prelude.{◌≡◌, ◌<◌, ℕ, Some};
ghost use Rattle.hmc_schedule.specs.declared.step.Step.{Step};
ghost use Rattle.hmc_codes.specs.declared.place.Place.TheVariants as places;
ghost use Rattle.hmc_journal.specs.Links.{direction_to};
ghost use Rattle.hmc_journal.specs.Setup.{cubes_in};
ghost use Rattle.hmc_check.specs.Moving.{IsShifting, IsWayOut, IsGoalQueue};
ghost use Rattle.hmc_check.specs.Past.{past_of, TakesStep, IsNextOfSome};

use crate::past::Past;
use hmc_codes::Lift;
use hmc_crossbar::To;
use hmc_entries::{Cause, Goal, IdleStep};
use hmc_packet::Packet;
use hmc_queues::QueueName;
use hmc_units::Workbench;

impl<B: Workbench> Past<B> {
    // The front of a port's buffer goes on, or is dropped.
    pub(crate) fn shift(&mut self, cube: u8, port: u8)
        requires { IsNextOfSome (past_of B.slots self.old) (Step.Shift cube port) }
        ensures { TakesStep (past_of B.slots self.old) (past_of B.slots self.new)
            (Step.Shift cube port) }
    {
        let direction = self.wiring.to_port(cube, port);
        if !self.ends.has_arrived(direction) {
            self.last.idle(IdleStep::Shift(cube, port), Cause::Empty);
            return;
        }
        self.shift_front(cube, port, direction);
    }

    fn shift_front(&mut self, cube: u8, port: u8, direction: u8)
        requires next { IsNextOfSome (past_of B.slots self.old) (Step.Shift cube port) }
        requires to { direction_to self.old.topology (places.Port cube port) ≡ Some direction }
        ensures { TakesStep (past_of B.slots self.old) (past_of B.slots self.new)
            (Step.Shift cube port) }
    {
        let Some(front) = self.ends.front(direction) else {
            self.last.idle(IdleStep::Shift(cube, port), Cause::Empty);
            return;
        };
        match self.wiring.goal(cube, &front) {
            To::Vault(vault) => {
                self.shift_in(
                    cube,
                    port,
                    direction,
                    QueueName::Vault(vault),
                    Goal::Vault(vault),
                    front,
                )
            }
            To::Registers => {
                self.shift_in(
                    cube,
                    port,
                    direction,
                    QueueName::Registers,
                    Goal::Registers,
                    front,
                )
            }
            To::Port(out) => self.shift_out(cube, port, direction, out, front),
            To::Nowhere => {
                self.ends.take(direction);
                self.last.dropped(cube, port);
            }
        }
    }

    // The front of a port's buffer goes into a queue of the cube.
    fn shift_in(
        &mut self,
        cube: u8,
        port: u8,
        direction: u8,
        room: QueueName,
        goal: Goal,
        front: Packet,
    )
        requires next { IsNextOfSome (past_of B.slots self.old) (Step.Shift cube port) }
        requires front { IsShifting (past_of B.slots self.old) cube port direction front goal }
        requires room { IsGoalQueue goal room }
        ensures { TakesStep (past_of B.slots self.old) (past_of B.slots self.new)
            (Step.Shift cube port) }
    {
        if !self.queues.has_room(cube, room) {
            self.last.idle(IdleStep::Shift(cube, port), Cause::Full);
            return;
        }
        self.ends.take(direction);
        self.queues.push(cube, room, front);
        self.last.shifted(cube, port, goal);
    }

    // The front of a port's buffer goes on through another port.
    fn shift_out(&mut self, cube: u8, port: u8, direction: u8, out: u8, front: Packet)
        requires next { IsNextOfSome (past_of B.slots self.old) (Step.Shift cube port) }
        requires front { IsShifting (past_of B.slots self.old) cube port direction front
            (Goal.Port out) }
        ensures { TakesStep (past_of B.slots self.old) (past_of B.slots self.new)
            (Step.Shift cube port) }
    {
        let Some(onward) = self.way_out(cube, out) else {
            self.last.idle(IdleStep::Shift(cube, port), Cause::Full);
            return;
        };
        self.ends.take(direction);
        self.ends.hand(onward, front);
        self.last.shifted(cube, port, Goal::Port(out));
    }

    // The direction that starts at a port, if its output queue has room.
    fn way_out(&self, cube: u8, port: u8) -> Option<u8>
        requires there { cube < cubes_in self.now.topology }
        requires some { (step : Step) × IsNextOfSome (past_of B.slots self.now) step }
        ensures { IsWayOut (past_of B.slots self.now) cube port result }
    {
        let direction = self.wiring.from_port(cube, port)?;
        if self.ends.has_room(direction) {
            Some(direction)
        } else {
            None
        }
    }

    // An answer goes to the output queue of the port towards its host.
    pub(crate) fn lift(&mut self, cube: u8, from: Lift)
        requires { IsNextOfSome (past_of B.slots self.old) (Step.Lift cube from) }
        ensures { TakesStep (past_of B.slots self.old) (past_of B.slots self.new)
            (Step.Lift cube from) }
    {
        if self.queues.is_empty(cube, QueueName::Answers(from)) {
            self.last.idle(IdleStep::Lift(cube, from), Cause::Empty);
            return;
        }
        self.lift_front(cube, from);
    }

    fn lift_front(&mut self, cube: u8, from: Lift)
        requires next { IsNextOfSome (past_of B.slots self.old) (Step.Lift cube from) }
        ensures { TakesStep (past_of B.slots self.old) (past_of B.slots self.new)
            (Step.Lift cube from) }
    {
        let Some(front) = self.queues.front(cube, QueueName::Answers(from)) else {
            self.last.idle(IdleStep::Lift(cube, from), Cause::Empty);
            return;
        };
        let port = self.wiring.port_towards(cube, front.slid);
        let Some(onward) = self.way_out(cube, port) else {
            self.last.idle(IdleStep::Lift(cube, from), Cause::Full);
            return;
        };
        self.queues.pop(cube, QueueName::Answers(from));
        self.ends.hand(onward, front);
        self.last.lifted(cube, from, port);
    }
}
