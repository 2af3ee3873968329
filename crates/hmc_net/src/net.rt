//! The network and its journal.

ghost use Rattle.std.specs.Prelude.{◌≡◌, ◌<◌, ◌≤◌, ◌+◌, ◌*◌, ◌^◌, ℕ, List, [], ◌∷◌, ◌++◌, IfOk, true, false, length, reverse};
ghost use Rattle.hmc_bound.specs.Bound.{drain_bound};
ghost use Rattle.hmc_bound.specs.Ends.{IsDrainedBy};
ghost use Rattle.hmc_host.specs.Tags.{number_out};
ghost use Rattle.hmc_journal.specs.Counts.{token_counts};
ghost use Rattle.hmc_journal.specs.Drained.{is_drained};
ghost use Rattle.hmc_journal.specs.Lawful.{has_passed};
ghost use Rattle.hmc_journal.specs.Next.{next};
ghost use Rattle.hmc_journal.specs.Setup.{Setup, setup_of};
ghost use Rattle.hmc_entries.specs.declared.entry.Entry.{Entry};
ghost use Rattle.hmc_rounds.specs.Single.{IsSingle};
ghost use Rattle.hmc_rounds.specs.Rounds.{RoundsFollow};
ghost use Rattle.hmc_journal.specs.UnderWay.{under_way};
ghost use Rattle.hmc_promises.specs.StepGuarantees.{StepGuarantees};
ghost use Rattle.hmc_net.specs.Journaled.{journaled_of, NetStandsFor, IsNetNext};
ghost use Rattle.hmc_net.specs.NetState.{net_of, cube_in};
ghost use Rattle.hmc_kept.specs.Hosts.{host_in};
ghost use Rattle.hmc_net.specs.Went.{went_of};

use crate::{Network, Went};
use hmc_bound::drains;
use hmc_case::Case;
use hmc_codes::{Memory, TokenRow};
use hmc_cube::Cube;
use hmc_entries::{Cause, Entry, Journal};
use hmc_schedule::Step;
use hmc_units::Workbench;
use std::alloc::Global;
use std::marker::Model;

mod finished;

/// A network and the journal of its steps, for those who read the entries afterwards. Where each
/// entry is used as it comes, a [`Network`] takes memory for one of them alone.
#[derive(Drop)]
pub struct Net<B: Workbench> {
    network: Network<B>,
    journal: Journal,
}

impl<B: Workbench> Model for Net<B> {
    ghost use Rattle.hmc_net.specs.Journaled.{JournaledParts};

    ghost Value = { JournaledParts B };

    ghost view = { λ n. record { network = n.network; journal = n.journal } };
}

impl<B: Workbench> Net<B> {
    /// The network of a case, in which nothing happened yet. All memory that its steps will need is
    /// reserved. `Memory` if out of memory.
    pub fn build(alloc: Global, case: &Case, bench: B) -> Result<Self, Memory>
        ensures stands { IfOk result (λ net. NetStandsFor (journaled_of B.slots net)
            (setup_of case.now (B.slots bench))) }
        ensures nothing { IfOk result (λ net. net.journal.past ≡ []) }
    {
        let journal = Journal::new(alloc, case.schedule().len())?;
        let network = Network::build(alloc, case, bench)?;
        Ok(Net { network, journal })
    }

    /// Takes the next step of a case's schedule. The journal has one more entry: what happened, or
    /// the first cause why nothing did.
    ///
    /// The network stands for some case whose next step this is, and no landing passed.
    pub fn step(&mut self, step: &Step) -> Went
        requires { (setup : Setup) × IsNetNext (journaled_of B.slots self.old) setup step.now }

        // The network still stands for the case, with one more entry: the one that the journal's
        // definition gives.
        ensures stands { (setup : Setup) →
            IsNetNext (journaled_of B.slots self.old) setup step.now →
            NetStandsFor (journaled_of B.slots self.new) setup }
        ensures past { (setup : Setup) →
            IsNetNext (journaled_of B.slots self.old) setup step.now →
            self.new.journal.past ≡ next setup self.old.journal.past step.now ∷
            self.old.journal.past }

        // The journal with the new entry keeps what is promised after each step: it is lawful,
        // serial and delivered in order, its links are in order, and its tokens add up.
        ensures guarantees { (setup : Setup) →
            IsNetNext (journaled_of B.slots self.old) setup step.now →
            StepGuarantees setup self.new.journal.past }

        // Idle or passed exactly where the entry is; an idle step changes nothing else.
        ensures went { (setup : Setup) →
            IsNetNext (journaled_of B.slots self.old) setup step.now →
            result ≡ went_of (next setup self.old.journal.past step.now) }
        ensures idle { (cause : Cause) → result ≡ Went.Idle cause →
            net_of B.slots self.new.network
            ≡ record (net_of B.slots self.old.network) { last = self.new.network.last } }
    {
        let went = self.network.step(step);
        self.journal.note(self.network.last().entry());
        went
    }

    /// Whether nothing is on its way. With one cube and one link it is so after enough whole rounds
    /// without noise. After a landing that passed this says nothing.
    pub fn drained(&self) -> bool
        ensures value { (setup : Setup) → NetStandsFor (journaled_of B.slots self.now) setup →
            has_passed self.now.journal.past ≡ false →
            result ≡ is_drained setup.topology self.now.journal.past }
        ensures bound { (setup : Setup) → NetStandsFor (journaled_of B.slots self.now) setup →
            has_passed self.now.journal.past ≡ false →
            IsDrainedBy setup self.now.journal.past result }
    {
        drains();
        self.network.drained()
    }

    /// The number of requests and responses under way. After a landing that passed it says nothing.
    pub fn under_way(&self) -> u32
        ensures { (setup : Setup) → NetStandsFor (journaled_of B.slots self.now) setup →
            has_passed self.now.journal.past ≡ false →
            result ≡ under_way setup.topology self.now.journal.past }
    {
        self.network.under_way()
    }

    /// So many whole rounds without noise drain a network of one cube and one link. After a landing
    /// that passed it says nothing.
    pub fn drain_bound(&self) -> u64
        ensures value { (setup : Setup) → NetStandsFor (journaled_of B.slots self.now) setup →
            has_passed self.now.journal.past ≡ false →
            result ≡ drain_bound setup.topology self.now.journal.past }
        ensures drains { (setup : Setup) → NetStandsFor (journaled_of B.slots self.now) setup →
            has_passed self.now.journal.past ≡ false → IsSingle setup.topology →
            (later : List Entry) (n : ℕ) →
            RoundsFollow setup self.now.journal.past later n → result ≤ n →
            is_drained setup.topology (later ++ self.now.journal.past) ≡ true }
    {
        self.network.drain_bound()
    }

    /// The five numbers of the tokens of a direction: link i has the directions 2i and 2i + 1.
    /// After a landing that passed they say nothing.
    pub fn tokens(&self, direction: u8) -> TokenRow
        requires { direction < 2 * length self.now.network.links }
        ensures { (setup : Setup) → NetStandsFor (journaled_of B.slots self.now) setup →
            has_passed self.now.journal.past ≡ false →
            result ≡ token_counts setup.topology self.now.journal.past direction }
    {
        self.network.tokens(direction)
    }

    /// The entries so far, the first one first.
    pub fn journal(&self) -> &[Entry]
        ensures entries { reverse result.now ≡ self.now.journal.past }
        ensures few { length result.now < 2 ^ 32 }
    {
        self.journal.entries()
    }

    /// The cube with this number, from 0.
    pub fn cube(&self, number: u8) -> &Cube
        requires { number < length self.now.network.cubes }
        ensures { result.now ≡ cube_in self.now.network.cubes number }
    {
        self.network.cube(number)
    }

    /// How many tags of the host with this number, from 0, are out. The final line of a host has
    /// it.
    pub fn tags_out(&self, number: u8) -> u16
        requires { number < length self.now.network.hosts }
        ensures { result ≡ number_out (host_in self.now.network.hosts number).tags }
    {
        self.network.tags_out(number)
    }
}
