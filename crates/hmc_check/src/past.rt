//! What a check keeps of the lines so far.

ghost use Rattle.std.specs.Prelude.{◌≡◌, ◌≤◌, ◌<◌, ◌+◌, ◌^◌, ◌∷◌, [], ℕ, List, ◌*◌, IfOk, length};
ghost use Rattle.hmc_schedule.specs.declared.step.Step.{Step};
ghost use Rattle.hmc_codes.specs.Limits.{most_cubes};
ghost use Rattle.hmc_entries.specs.declared.entry.Entry.{Entry};
ghost use Rattle.hmc_journal.specs.Next.{next};
ghost use Rattle.hmc_journal.specs.Setup.{Setup, setup_of};
ghost use Rattle.hmc_journal.specs.StepView.{view_of};
ghost use Rattle.hmc_entries.specs.Event.{event_of, IsLongFlit};
ghost use Rattle.hmc_tally.specs.Tally.{tallied, step_changes, unlocks_good, IsWithin};
ghost use Rattle.hmc_serial.specs.Machine.{openings_from};
ghost use Rattle.hmc_check.specs.Opening.{queues_setup, sizes_of, shapes_of, new_queues};
ghost use Rattle.hmc_check.specs.Past.{past_of, TakesStep, IsNextOfSome, IsNextStep, Keeps, Counts};

use hmc_case::{Case, CubeSetup};
use hmc_codes::{Memory, Shape};
use hmc_directions::Ends;
use hmc_entries::LastEntry;
use hmc_host::Host;
use hmc_kept::{Parts, Pipes};
use hmc_queues::{Queues, QueuesSetup};
use hmc_schedule::{Step, act};
use hmc_script::Script;
use hmc_serial::Plain;
use hmc_tally::{Tally, is_good, step_changes};
use hmc_units::Workbench;
use hmc_wiring::Wiring;
use std::alloc::Global;
use std::marker::Model;

mod cubes;
mod finished;
mod hosts;
mod lines;
mod ports;
mod throughs;

/// What a check keeps of the lines so far: the packets in all queues, a plain machine and the logic
/// units, the hosts, the ends of the links, the packets that are forwarded, the counts, and the
/// entry of the latest line.
#[derive(Drop)]
pub struct Past<B: Workbench> {
    wiring: Wiring,
    queues: Queues,
    plain: Plain,
    bench: B,
    hosts: Vec<Host>,
    ends: Ends,
    piped: Pipes,
    tally: Tally,
    last: LastEntry,
}

impl<B: Workbench> Model for Past<B> {
    ghost use Rattle.hmc_check.specs.Past.{PastParts};

    ghost Value = { PastParts B };

    ghost view = { λ p. record {
      topology = p.wiring;
      queues = p.queues;
      cubes = p.plain;
      bench = p.bench;
      hosts = p.hosts.items;
      ends = p.ends;
      piped = p.piped;
      tally = p.tally;
      last = p.last;
    } };
}

impl<B: Workbench> Past<B> {
    /// Before the first line of a case. All memory that the lines will need is reserved. `Memory`
    /// if out of memory.
    pub fn new(alloc: Global, case: &Case, bench: B) -> Result<Self, Memory>
        ensures { IfOk result (λ past. Keeps (setup_of case.now (B.slots bench)) []
            (past_of B.slots past)) }
    {
        let parts = Parts::build(alloc, case)?;
        let queues = queues_of(alloc, case.cubes())?;
        let plain = plain_of(alloc, case.cubes())?;
        let ends = Ends::new(alloc, case.links())?;
        Ok(Past {
            wiring: parts.wiring,
            queues,
            plain,
            bench,
            hosts: parts.hosts,
            ends,
            piped: parts.piped,
            tally: parts.tally,
            last: LastEntry::new(),
        })
    }

    /// Takes the next step of the case's schedule. The last entry is then the one that a lawful
    /// journal has next.
    pub fn step(&mut self, step: &Step)
        requires { (setup : Setup) × (past : List Entry) ×
            IsNextStep setup past (past_of B.slots self.old) step.now ×
            Counts setup past self.old.tally }
        ensures keeps { (setup : Setup) (past : List Entry) →
            IsNextStep setup past (past_of B.slots self.old) step.now →
            Counts setup past self.old.tally →
            Keeps setup (next setup past step.now ∷ past) (past_of B.slots self.new) }
        ensures last { (setup : Setup) (past : List Entry) →
            IsNextStep setup past (past_of B.slots self.old) step.now →
            self.new.last ≡ next setup past step.now }
    {
        let was_good = self.unlocks_good(step);
        self.act(step);
        self.count(step, was_good);
    }

    // Counts the step of the last entry.
    fn count(&mut self, step: &Step, was_good: bool)
        requires { (most : ℕ) × (most + 1 < 2 ^ 32) × IsWithin most self.old.tally }
        ensures counted { self.new ≡ record self.old { tally = self.new.tally } }
        ensures tally { self.new.tally ≡ tallied (step_changes step.now) was_good
            (event_of self.old.last) self.old.tally }
        ensures within { (most : ℕ) → IsWithin most self.old.tally →
            IsWithin (most + 1) self.new.tally }
        ensures long { IsLongFlit self.old.last }
    {
        self.last.flit_is_long();
        let event = self.last.event();
        self.tally.add(event, step_changes(step), was_good);
    }

    fn act(&mut self, step: &Step)
        requires { IsNextOfSome (past_of B.slots self.old) (step.now) }
        ensures { TakesStep (past_of B.slots self.old) (past_of B.slots self.new) (step.now) }
    {
        act!(self, step)
    }

    // Whether the receiver that a step unlocks is good.
    fn unlocks_good(&self, step: &Step) -> bool
        requires { IsNextOfSome (past_of B.slots self.now) step.now }
        ensures { (setup : Setup) (past : List Entry) →
            IsNextStep setup past (past_of B.slots self.now) step.now →
            result ≡ unlocks_good (view_of setup past) step.now }
    {
        match step {
            Step::Unlock(direction) => is_good(self.ends.mode(*direction)),
            _ => false,
        }
    }

    /// The entry of the latest line.
    pub fn last(&self) -> &LastEntry
        ensures { result.now ≡ self.now.last }
    {
        &self.last
    }
}

// Empty queues of cubes with these setups.
fn queues_of(alloc: Global, setups: &[CubeSetup]) -> Result<Queues, Memory>
    ensures { IfOk result (λ queues. queues ≡ new_queues setups.now) }
{
    let sizes = sizes_of(alloc, setups)?;
    Queues::new(alloc, &sizes)
}

// How many queues cubes with these setups have.
fn sizes_of(alloc: Global, setups: &[CubeSetup]) -> Result<Vec<QueuesSetup>, Memory>
    ensures { IfOk result (λ sizes. sizes.items ≡ sizes_of setups.now) }
{
    let mut sizes = Vec::with_capacity(alloc, setups.len())?;
    for at in 0..setups.len() {
        sizes.push(queues_setup(&setups[at]))?;
    }
    Ok(sizes)
}

// How many queues a cube with this setup has.
fn queues_setup(setup: &CubeSetup) -> QueuesSetup
    ensures { result ≡ queues_setup setup.now }
{
    QueuesSetup {
        vaults: 1 << setup.shape.vault_bits,
        banks: 1 << setup.shape.bank_bits,
        size: setup.queue,
    }
}

// The machine of cubes with these setups.
fn plain_of(alloc: Global, setups: &[CubeSetup]) -> Result<Plain, Memory>
    requires some { 1 ≤ length setups.now }
    requires few { length setups.now ≤ most_cubes }
    ensures { IfOk result (λ plain. plain ≡ openings_from 0 (shapes_of setups.now)) }
{
    let shapes = shapes_of(alloc, setups)?;
    Plain::new(alloc, &shapes)
}

// The shapes of cubes with these setups.
fn shapes_of(alloc: Global, setups: &[CubeSetup]) -> Result<Vec<Shape>, Memory>
    ensures { IfOk result (λ shapes. shapes.items ≡ shapes_of setups.now) }
{
    let mut shapes = Vec::with_capacity(alloc, setups.len())?;
    for at in 0..setups.len() {
        shapes.push(shape_of(&setups[at]))?;
    }
    Ok(shapes)
}

fn shape_of(setup: &CubeSetup) -> Shape
    ensures { result ≡ setup.now.shape }
{
    setup.shape
}
