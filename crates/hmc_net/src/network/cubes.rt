//! The steps in cubes: spread, bank and registers.

ghost use Rattle.std.specs.Prelude.{◌≡◌, ◌<◌};
ghost use Rattle.hmc_codes.specs.Commands.{is_posted};
ghost use Rattle.hmc_cube.specs.After.{bank_says};
ghost use Rattle.hmc_journal.specs.Answers.{spread_entry, tag_of, ran_entry};
ghost use Rattle.hmc_journal.specs.Setup.{cubes_in};
ghost use Rattle.hmc_entries.specs.IdleStep.{idle_step};
ghost use Rattle.hmc_net.specs.Apply.{DoesStep};
ghost use Rattle.hmc_net.specs.NetState.{net_of, cube_in};
ghost use Rattle.hmc_wiring.specs.Ready.{IsVaultIn, IsBankIn};
ghost use Rattle.hmc_net.specs.Sees.{IsReady};
ghost use Rattle.hmc_net.specs.Went.{went_of};

use crate::went::idle;
use crate::{Network, Went};
use hmc_codes::{Command, Unit};
use hmc_cube::{Executed, Execution, ExecutionKind, Spread};
use hmc_entries::{Cause, IdleStep, LastEntry};
use hmc_schedule::Step;
use hmc_units::Workbench;

impl<B: Workbench> Network<B> {
    // The front of a vault's queue goes to its bank.
    #[inline(always)]
    pub(crate) fn spread(&mut self, cube: u8, vault: u8) -> Went
        requires there { IsVaultIn self.old.topology cube vault }
        requires ready { IsReady (net_of B.slots self.old) }
        ensures does { DoesStep (net_of B.slots self.old) (net_of B.slots self.new)
            (Step.Spread cube vault) }
        ensures went { result ≡ went_of self.new.last }
    {
        let owner = &mut self.cubes[usize::from(cube)];
        owner.invariant();
        let spread = owner.spread(vault);
        note_spread(&mut self.last, cube, vault, spread)
    }

    // A bank executes the front of its queue.
    #[inline(always)]
    pub(crate) fn bank(&mut self, cube: u8, vault: u8, bank: u8) -> Went
        requires there { IsBankIn self.old.topology cube vault bank }
        requires ready { IsReady (net_of B.slots self.old) }
        ensures does { DoesStep (net_of B.slots self.old) (net_of B.slots self.new)
            (Step.Bank cube vault bank) }
        ensures went { result ≡ went_of self.new.last }
    {
        if self.cubes[usize::from(cube)].bank_is_empty(vault, bank) {
            return idle(
                &mut self.last,
                IdleStep::Bank(cube, vault, bank),
                Cause::Empty,
            );
        }
        if self.cubes[usize::from(cube)].bank_waits(vault, bank) {
            return self.bank_full(cube, vault, bank);
        }
        self.bank_front(cube, vault, bank)
    }

    // Its front waits for room among the answers.
    fn bank_full(&mut self, cube: u8, vault: u8, bank: u8) -> Went
        requires there { IsBankIn self.old.topology cube vault bank }
        requires ready { IsReady (net_of B.slots self.old) }
        requires full { bank_says (cube_in (net_of B.slots self.old).cubes cube)
            (net_of B.slots self.old).slots vault bank ≡ Executed.Full }
        ensures does { DoesStep (net_of B.slots self.old) (net_of B.slots self.new)
            (Step.Bank cube vault bank) }
        ensures went { result ≡ went_of self.new.last }
    {
        self.cubes[usize::from(cube)].invariant();
        idle(
            &mut self.last,
            IdleStep::Bank(cube, vault, bank),
            Cause::Full,
        )
    }

    // The same. Where the queue is empty, no request is to be moved.
    #[inline(never)]
    fn bank_front(&mut self, cube: u8, vault: u8, bank: u8) -> Went
        requires there { IsBankIn self.old.topology cube vault bank }
        requires ready { IsReady (net_of B.slots self.old) }
        ensures does { DoesStep (net_of B.slots self.old) (net_of B.slots self.new)
            (Step.Bank cube vault bank) }
        ensures went { result ≡ went_of self.new.last }
    {
        let unit = Unit::Bank { cube, vault, bank };
        let owner = &mut self.cubes[usize::from(cube)];
        owner.invariant();
        owner.execute_in(vault, bank, &mut self.bench, &mut self.execution);
        let step = IdleStep::Bank(cube, vault, bank);
        note_ran(&mut self.last, unit, step, &self.execution)
    }

    // The registers execute the front of their queue.
    #[inline(always)]
    pub(crate) fn registers(&mut self, cube: u8) -> Went
        requires there { cube < cubes_in self.old.topology }
        requires ready { IsReady (net_of B.slots self.old) }
        ensures does { DoesStep (net_of B.slots self.old) (net_of B.slots self.new)
            (Step.Registers cube) }
        ensures went { result ≡ went_of self.new.last }
    {
        if self.cubes[usize::from(cube)].register_queue_is_empty() {
            return idle(&mut self.last, IdleStep::Registers(cube), Cause::Empty);
        }
        self.registers_front(cube)
    }

    // The same. Where the queue is empty, no request is to be moved.
    #[inline(never)]
    fn registers_front(&mut self, cube: u8) -> Went
        requires there { cube < cubes_in self.old.topology }
        requires ready { IsReady (net_of B.slots self.old) }
        ensures does { DoesStep (net_of B.slots self.old) (net_of B.slots self.new)
            (Step.Registers cube) }
        ensures went { result ≡ went_of self.new.last }
    {
        let unit = Unit::Registers { cube };
        let owner = &mut self.cubes[usize::from(cube)];
        owner.registers_in(&mut self.bench, &mut self.execution);
        let step = IdleStep::Registers(cube);
        note_ran(&mut self.last, unit, step, &self.execution)
    }
}

// The last entry becomes that of a spread.
fn note_spread(last: &mut LastEntry, cube: u8, vault: u8, spread: Spread) -> Went
    ensures entry { last.new ≡ spread_entry cube vault spread }
    ensures went { result ≡ went_of last.new }
{
    match spread {
        Spread::Empty => idle(last, IdleStep::Spread(cube, vault), Cause::Empty),
        Spread::Full => idle(last, IdleStep::Spread(cube, vault), Cause::Full),
        Spread::Moved { bank } => {
            last.spread(cube, vault, bank);
            Went::Done
        }
    }
}

// The last entry becomes that of an execution.
#[inline(always)]
fn note_ran(last: &mut LastEntry, unit: Unit, step: IdleStep, execution: &Execution) -> Went
    ensures entry { last.new ≡ ran_entry unit (idle_step step) execution.now }
    ensures went { result ≡ went_of last.new }
{
    match execution.kind() {
        ExecutionKind::Empty => idle(last, step, Cause::Empty),
        ExecutionKind::Full => idle(last, step, Cause::Full),
        ExecutionKind::Ran { host, tag } => {
            let request = execution.request();
            let tag = tag_of(request.command, tag);
            last.executed(unit, host, tag, request, execution.answer());
            Went::Done
        }
    }
}

// The tag of a request, which it has where it is answered.
fn tag_of(command: Command, tag: u16) -> Option<u16>
    ensures { result ≡ tag_of (is_posted command) tag }
{
    if command.posted() { None } else { Some(tag) }
}
