//! The steps in cubes: spread, bank and registers, and retire.

ghost use Rattle.std.specs.Prelude.{◌≡◌, ◌<◌, ℕ, true, false, length};
ghost use Rattle.hmc_schedule.specs.declared.step.Step.{Step};
ghost use Rattle.hmc_codes.specs.Commands.{is_posted};
ghost use Rattle.hmc_entries.specs.IdleStep.{idle_step};
ghost use Rattle.hmc_journal.specs.Setup.{unit_cube};
ghost use Rattle.hmc_queues.specs.Queues.{packets_at, size_at};
ghost use Rattle.hmc_check.specs.Units.{step_of, queue_name, answers_name, IsRequestAt};
ghost use Rattle.hmc_check.specs.Past.{past_of, TakesStep, IsNextOfSome};

use crate::past::Past;
use hmc_codes::{Lift, Request, Unit};
use hmc_entries::{Cause, IdleStep};
use hmc_packet::{Packet, reply, request_of};
use hmc_queues::QueueName;
use hmc_units::Workbench;

impl<B: Workbench> Past<B> {
    // The front of a vault's queue goes to its bank.
    pub(crate) fn spread(&mut self, cube: u8, vault: u8)
        requires { IsNextOfSome (past_of B.slots self.old) (Step.Spread cube vault) }
        ensures { TakesStep (past_of B.slots self.old) (past_of B.slots self.new)
            (Step.Spread cube vault) }
    {
        if self.queues.is_empty(cube, QueueName::Vault(vault)) {
            self.last.idle(IdleStep::Spread(cube, vault), Cause::Empty);
            return;
        }
        self.spread_front(cube, vault);
    }

    fn spread_front(&mut self, cube: u8, vault: u8)
        requires { IsNextOfSome (past_of B.slots self.old) (Step.Spread cube vault) }
        ensures { TakesStep (past_of B.slots self.old) (past_of B.slots self.new)
            (Step.Spread cube vault) }
    {
        let Some(front) = self.queues.front(cube, QueueName::Vault(vault)) else {
            self.last.idle(IdleStep::Spread(cube, vault), Cause::Empty);
            return;
        };
        let bank = self.wiring.shape(cube).spot(front.address).bank;
        if !self.queues.has_room(cube, QueueName::Bank(vault, bank)) {
            self.last.idle(IdleStep::Spread(cube, vault), Cause::Full);
            return;
        }
        self.queues.pop(cube, QueueName::Vault(vault));
        self.queues.push(cube, QueueName::Bank(vault, bank), front);
        self.last.spread(cube, vault, bank);
    }

    // A bank executes the front of its queue.
    pub(crate) fn bank(&mut self, cube: u8, vault: u8, bank: u8)
        requires { IsNextOfSome (past_of B.slots self.old) (Step.Bank cube vault bank) }
        ensures { TakesStep (past_of B.slots self.old) (past_of B.slots self.new)
            (Step.Bank cube vault bank) }
    {
        let unit = Unit::Bank { cube, vault, bank };
        self.execute(unit);
    }

    // The registers execute the front of their queue.
    pub(crate) fn registers(&mut self, cube: u8)
        requires { IsNextOfSome (past_of B.slots self.old) (Step.Registers cube) }
        ensures { TakesStep (past_of B.slots self.old) (past_of B.slots self.new)
            (Step.Registers cube) }
    {
        self.execute(Unit::Registers { cube });
    }

    // A unit executes the front of its queue.
    fn execute(&mut self, unit: Unit)
        requires { IsNextOfSome (past_of B.slots self.old) (step_of unit) }
        ensures { TakesStep (past_of B.slots self.old) (past_of B.slots self.new) (step_of unit) }
    {
        let cube = cube_of(unit);
        if self.queues.is_empty(cube, queue_of(unit)) {
            self.last.idle(step_of(unit), Cause::Empty);
            return;
        }
        self.execute_front(unit, cube);
    }

    // The same. Where the queue is empty, no request is to be moved.
    fn execute_front(&mut self, unit: Unit, cube: u8)
        requires next { IsNextOfSome (past_of B.slots self.old) (step_of unit) }
        requires cube { cube ≡ unit_cube unit }
        ensures { TakesStep (past_of B.slots self.old) (past_of B.slots self.new) (step_of unit) }
    {
        let Some(front) = self.queues.front(cube, queue_of(unit)) else {
            self.last.idle(step_of(unit), Cause::Empty);
            return;
        };
        let Some(request) = request_of(&front) else {
            self.last.idle(step_of(unit), Cause::Empty);
            return;
        };
        if request.command.posted() {
            self.execute_posted(unit, cube, &front, &request);
            return;
        }
        if !self.queues.has_room(cube, answers_of(unit)) {
            self.last.idle(step_of(unit), Cause::Full);
            return;
        }
        self.execute_answered(unit, cube, &front, &request);
    }

    // A unit executes the front of its queue, which is posted.
    fn execute_posted(&mut self, unit: Unit, cube: u8, front: &Packet, request: &Request)
        requires next { IsNextOfSome (past_of B.slots self.old) (step_of unit) }
        requires front { IsRequestAt (past_of B.slots self.old) unit cube front.now request.now }
        requires posted { is_posted request.now.command ≡ true }
        ensures { TakesStep (past_of B.slots self.old) (past_of B.slots self.new) (step_of unit) }
    {
        self.queues.pop(cube, queue_of(unit));
        let answer = self.plain.apply(request, &mut self.bench);
        self.last.executed(unit, front.slid, None, request, &answer);
    }

    // A unit executes the front of its queue, and its answer has room.
    fn execute_answered(&mut self, unit: Unit, cube: u8, front: &Packet, request: &Request)
        requires next { IsNextOfSome (past_of B.slots self.old) (step_of unit) }
        requires front { IsRequestAt (past_of B.slots self.old) unit cube front.now request.now }
        requires answered { is_posted request.now.command ≡ false }
        requires room { length (packets_at self.old.queues cube (answers_name unit))
            < size_at self.old.queues cube }
        ensures { TakesStep (past_of B.slots self.old) (past_of B.slots self.new) (step_of unit) }
    {
        self.queues.pop(cube, queue_of(unit));
        request.invariant();
        front.invariant();
        let answer = self.plain.apply(request, &mut self.bench);
        let back = reply(&answer, front.tag, front.slid, request.cube);
        self.queues.push(cube, answers_of(unit), back);
        self.last
            .executed(unit, front.slid, Some(front.tag), request, &answer);
    }

    // The unit of a slot is gone for good, if there is one.
    pub(crate) fn retire(&mut self, slot: u8)
        requires { IsNextOfSome (past_of B.slots self.old) (Step.Retire slot) }
        ensures { TakesStep (past_of B.slots self.old) (past_of B.slots self.new)
            (Step.Retire slot) }
    {
        if self.bench.retire(slot) {
            self.last.retired(slot);
        } else {
            self.last.idle(IdleStep::Retire(slot), Cause::Empty);
        }
    }
}

// The step of a unit.
fn step_of(unit: Unit) -> IdleStep
    ensures { idle_step result ≡ step_of unit }
{
    match unit {
        Unit::Bank { cube, vault, bank } => IdleStep::Bank(cube, vault, bank),
        Unit::Registers { cube } => IdleStep::Registers(cube),
    }
}

// The cube of a unit.
fn cube_of(unit: Unit) -> u8
    ensures { result ≡ unit_cube unit }
{
    match unit {
        Unit::Bank { cube, .. } => cube,
        Unit::Registers { cube } => cube,
    }
}

// The queue of a unit.
fn queue_of(unit: Unit) -> QueueName
    ensures { result ≡ queue_name unit }
{
    match unit {
        Unit::Bank { vault, bank, .. } => QueueName::Bank(vault, bank),
        Unit::Registers { .. } => QueueName::Registers,
    }
}

// The queue of its answers.
fn answers_of(unit: Unit) -> QueueName
    ensures { result ≡ answers_name unit }
{
    match unit {
        Unit::Bank { vault, .. } => QueueName::Answers(Lift::Vault(vault)),
        Unit::Registers { .. } => QueueName::Answers(Lift::Registers),
    }
}
