//! The network.

ghost use Rattle.std.specs.Prelude.{ℕ, ◌++◌, true, ◌+◌, ◌^◌, sum_by, ◌≡◌, ◌≤◌, ◌<◌, ◌*◌, ◌↔◌, List, [], ◌∷◌, IfOk, IsTrue, false, length};
ghost use Rattle.std.specs.List.{All};
ghost use Rattle.hmc_bound.specs.Bound.{drain_bound};
ghost use Rattle.hmc_cube.specs.Cube.{held_in_cube};
ghost use Rattle.hmc_cube.specs.Parts.{AreParts};
ghost use Rattle.hmc_host.specs.Tags.{number_out};
ghost use Rattle.hmc_journal.specs.Counts.{token_counts};
ghost use Rattle.hmc_entries.specs.declared.entry.Entry.{Entry};
ghost use Rattle.hmc_entries.specs.declared.outcome.Cause.{Cause};
ghost use Rattle.hmc_journal.specs.Drained.{is_drained};
ghost use Rattle.hmc_journal.specs.Lawful.{has_passed};
ghost use Rattle.hmc_journal.specs.Next.{next};
ghost use Rattle.hmc_journal.specs.Setup.{Setup, setup_of};
ghost use Rattle.hmc_journal.specs.UnderWay.{under_way};
ghost use Rattle.hmc_rounds.specs.Rounds.{RoundsFollow};
ghost use Rattle.hmc_rounds.specs.Single.{IsSingle};
ghost use Rattle.hmc_promises.specs.StepGuarantees.{StepGuarantees};
ghost use Rattle.hmc_net.specs.Apply.{DoesStep};
ghost use Rattle.hmc_net.specs.NetState.{net_of, cube_in};
ghost use Rattle.hmc_kept.specs.Hosts.{host_in};
ghost use Rattle.hmc_net.specs.Quiescent.{IsQuiescent, IsEmptyCube};
ghost use Rattle.hmc_wiring.specs.Ready.{IsStepFor};
ghost use Rattle.hmc_net.specs.Sees.{IsReady};
ghost use Rattle.hmc_net.specs.Stands.{StandsFor, IsNext};
ghost use Rattle.hmc_net.specs.Went.{went_of};

use crate::Went;
use hmc_bound::{drains, under_way_by_parts};
use hmc_case::Case;
use hmc_codes::{Memory, TokenRow};
use hmc_cube::{Cube, Execution};
use hmc_entries::LastEntry;
use hmc_host::Host;
use hmc_kept::{Parts, Pipes};
use hmc_links::LinkList;
use hmc_schedule::{Step, act};
use hmc_script::Script;
use hmc_tally::Tally;
use hmc_units::Workbench;
use hmc_wiring::Wiring;
use std::alloc::Global;
use std::marker::Model;

mod asking;
mod counting;
mod cubes;
mod finished;
mod hosts;
mod links;
mod opening;
mod ports;
mod throughs;
mod units;

use opening::new_cubes;

/// A network of 1 to 8 cubes, 1 to 32 links and 1 to 8 hosts, and the entry of its latest step.
#[derive(Drop)]
pub struct Network<B: Workbench> {
    wiring: Wiring,
    cubes: Vec<Cube>,
    hosts: Vec<Host>,
    bench: B,
    links: LinkList,
    piped: Pipes,
    tally: Tally,
    last: LastEntry,
    // What the latest execution did: one after another is written here.
    execution: Execution,
}

impl<B: Workbench> Model for Network<B> {
    ghost use Rattle.hmc_net.specs.NetState.{NetParts};

    ghost Value = { NetParts B };

    ghost view = { λ n. record {
      topology = n.wiring;
      cubes = n.cubes.items;
      hosts = n.hosts.items;
      bench = n.bench;
      links = n.links;
      piped = n.piped;
      tally = n.tally;
      last = n.last;
    } };
}

impl<B: Workbench> Network<B> {
    /// The network of a case, in which nothing happened yet. All memory that its steps will need is
    /// reserved. `Memory` if out of memory.
    pub fn build(alloc: Global, case: &Case, bench: B) -> Result<Self, Memory>
        ensures { IfOk result (λ network. StandsFor (net_of B.slots network)
            (setup_of case.now (B.slots bench)) []) }
    {
        let parts = Parts::build(alloc, case)?;
        let cubes = new_cubes(alloc, case.cubes())?;
        let links = LinkList::build(alloc, case.links())?;
        Ok(Network {
            wiring: parts.wiring,
            cubes,
            hosts: parts.hosts,
            bench,
            links,
            piped: parts.piped,
            tally: parts.tally,
            last: LastEntry::new(),
            execution: Execution::new(),
        })
    }

    /// Takes the next step of a case's schedule. The last entry is that of the step: what happened,
    /// or the first cause why nothing did.
    ///
    /// The network stands for some case and the entries of its steps, this is the case's next step,
    /// and no landing passed.
    #[inline(always)]
    pub fn step(&mut self, step: &Step) -> Went
        requires { (setup : Setup) × (past : List Entry) ×
            IsNext (net_of B.slots self.old) setup past step.now }

        // The network still stands for the case, with one more entry: the one that the journal's
        // definition gives. The last entry is that one.
        ensures stands { (setup : Setup) (past : List Entry) →
            IsNext (net_of B.slots self.old) setup past step.now →
            StandsFor (net_of B.slots self.new) setup (next setup past step.now ∷ past) }
        ensures last { (setup : Setup) (past : List Entry) →
            IsNext (net_of B.slots self.old) setup past step.now →
            self.new.last ≡ next setup past step.now }

        // The entries with the new one keep what is promised after each step: they are lawful,
        // serial and delivered in order, their links are in order, and their tokens add up.
        ensures guarantees { (setup : Setup) (past : List Entry) →
            IsNext (net_of B.slots self.old) setup past step.now →
            StepGuarantees setup (next setup past step.now ∷ past) }

        // Idle or passed exactly where the entry is; an idle step changes nothing else.
        ensures went { (setup : Setup) (past : List Entry) →
            IsNext (net_of B.slots self.old) setup past step.now →
            result ≡ went_of (next setup past step.now) }
        ensures idle { (cause : Cause) → result ≡ Went.Idle cause →
            net_of B.slots self.new ≡ record (net_of B.slots self.old) { last = self.new.last } }
    {
        let was_good = self.unlocks_good(step);
        let went = self.act(step);
        self.count(step, went, was_good);
        went
    }

    // What the step does.
    #[inline(always)]
    fn act(&mut self, step: &Step) -> Went
        requires there { IsStepFor self.old.topology step.now }
        requires ready { IsReady (net_of B.slots self.old) }
        ensures does { DoesStep (net_of B.slots self.old) (net_of B.slots self.new) step.now }
        ensures went { result ≡ went_of self.new.last }
    {
        act!(self, step)
    }

    /// The entry of the latest step. Before the first step it says nothing.
    pub fn last(&self) -> &LastEntry
        ensures { result.now ≡ self.now.last }
    {
        &self.last
    }

    /// The logic units, as they are after the steps so far.
    pub fn into_bench(self) -> B
        ensures { result ≡ self.bench }
    {
        let Network {
            wiring: _,
            cubes: _,
            hosts: _,
            bench,
            links: _,
            piped: _,
            tally: _,
            last: _,
            execution: _,
        } = self;
        bench
    }

    /// Whether nothing is on its way. After a landing that passed this says nothing.
    pub fn drained(&self) -> bool
        ensures { (setup : Setup) (past : List Entry) →
            StandsFor (net_of B.slots self.now) setup past →
            has_passed past ≡ false → result ≡ is_drained setup.topology past }
    {
        self.is_quiescent()
    }

    // Whether no part holds a packet.
    fn is_quiescent(&self) -> bool
        ensures { IsTrue result ↔ IsQuiescent (net_of B.slots self.now) }
    {
        let links = self.links.are_quiet();
        let cubes = are_empty(&self.cubes);
        links && cubes
    }

    /// The number of requests and responses under way. After a landing that passed it says nothing.
    pub fn under_way(&self) -> u32
        ensures { (setup : Setup) (past : List Entry) →
            StandsFor (net_of B.slots self.now) setup past →
            has_passed past ≡ false → result ≡ under_way setup.topology past }
    {
        under_way_by_parts();
        are_cubes(&self.cubes);
        let links = self.links.held();
        let cubes = held_in(&self.cubes);
        narrow(links.saturating_add(cubes))
    }

    /// So many whole rounds without noise drain a network of one cube and one link. After a landing
    /// that passed it says nothing.
    pub fn drain_bound(&self) -> u64
        ensures value { (setup : Setup) (past : List Entry) →
            StandsFor (net_of B.slots self.now) setup past → has_passed past ≡ false →
            result ≡ drain_bound setup.topology past }
        ensures drains { (setup : Setup) (past : List Entry) →
            StandsFor (net_of B.slots self.now) setup past → has_passed past ≡ false →
            IsSingle setup.topology → (later : List Entry) (n : ℕ) →
            RoundsFollow setup past later n → result ≤ n →
            is_drained setup.topology (later ++ past) ≡ true }
    {
        drains();
        4000 + 2000 * (u64::from(self.under_way()) + 1)
    }

    /// The five numbers of the tokens of a direction: link i has the directions 2i and 2i + 1.
    /// After a landing that passed they say nothing.
    pub fn tokens(&self, direction: u8) -> TokenRow
        requires { direction < 2 * length self.now.links }
        ensures { (setup : Setup) (past : List Entry) →
            StandsFor (net_of B.slots self.now) setup past →
            has_passed past ≡ false → result ≡ token_counts setup.topology past direction }
    {
        self.links.tokens(direction)
    }

    /// The cube with this number, from 0.
    pub fn cube(&self, number: u8) -> &Cube
        requires { number < length self.now.cubes }
        ensures { result.now ≡ cube_in self.now.cubes number }
    {
        &self.cubes[usize::from(number)]
    }

    /// How many tags of the host with this number, from 0, are out. The final line of a host has
    /// it.
    pub fn tags_out(&self, number: u8) -> u16
        requires { number < length self.now.hosts }
        ensures { result ≡ number_out (host_in self.now.hosts number).tags }
    {
        self.hosts[usize::from(number)].out()
    }
}

// The number of packets in these cubes.
fn held_in(cubes: &[Cube]) -> u64
    ensures { length cubes.now ≤ 8 →
        (result ≡ sum_by held_in_cube cubes.now) × (result ≤ 2 ^ 24) }
{
    let mut held: u64 = 0;
    for cube in cubes {
        held = held.saturating_add(u64::from(cube.held()));
    }
    held
}

// Does nothing. Each cube keeps what every cube keeps.
fn are_cubes(cubes: &[Cube])
    ensures { All AreParts cubes.now }
{
    for cube in cubes {
        cube.invariant();
    }
}

// A count that a u32 holds.
fn narrow(count: u64) -> u32
    ensures { count < 2 ^ 32 → result ≡ count }
{
    if count < 1 << 32 {
        count as u32
    } else {
        u32::MAX
    }
}

// Whether no cube holds a packet.
fn are_empty(cubes: &[Cube]) -> bool
    ensures { IsTrue result ↔ All IsEmptyCube cubes.now }
{
    cubes.iter().all(|cube| cube.held() == 0)
}
