//! What a network shows at its end.

ghost use Rattle.std.specs.Prelude.{◌≡◌, List, false};
ghost use Rattle.hmc_entries.specs.declared.entry.Entry.{Entry};
ghost use Rattle.hmc_journal.specs.Final.{values_of, final_lines_of};
ghost use Rattle.hmc_journal.specs.Lawful.{has_passed};
ghost use Rattle.hmc_journal.specs.Setup.{Setup};
ghost use Rattle.hmc_report.specs.Final.{ending_lines, final_lines};
ghost use Rattle.hmc_net.specs.Finished.{is_quiescent, net_values};
ghost use Rattle.hmc_net.specs.NetState.{net_of};
ghost use Rattle.hmc_net.specs.Stands.{StandsFor};

use crate::Network;
use crate::shown::{block_at, memory_size, register_at};
use hmc_codes::{Counters, CubeCounts, HostCounts, TokenRow};
use hmc_kept::counts_of_host;
use hmc_report::Finished;
use hmc_units::Workbench;

impl<B: Workbench> Network<B> {
    /// Does nothing. Where the network stands for a case and a journal, and no landing passed, the
    /// final lines of what it shows are those of the journal, all of them and from tokens on.
    pub fn shows_journal(&self)
        ensures whole { (setup : Setup) (past : List Entry) →
            StandsFor (net_of B.slots self.now) setup past → has_passed past ≡ false →
            final_lines (net_values (net_of B.slots self.now)) ≡ final_lines_of setup past }
        ensures ending { (setup : Setup) (past : List Entry) →
            StandsFor (net_of B.slots self.now) setup past → has_passed past ≡ false →
            ending_lines (net_values (net_of B.slots self.now))
            ≡ ending_lines (values_of setup past) }
    {
        let _ = &self.last;
    }

    // Whether no part holds a packet, as a value.
    fn is_still(&self) -> bool
        ensures { result ≡ is_quiescent (net_of B.slots self.now) }
    {
        self.is_quiescent()
    }
}

#[tactic(auto, unfolding(crate::specs::Finished::net_values))]
impl<B: Workbench> Finished for Network<B> {
    ghost final_values = { λ n. net_values (net_of B.slots n) };

    fn cubes(&self) -> u8 {
        self.tally.cubes()
    }

    fn directions(&self) -> u8 {
        self.tally.directions()
    }

    fn hosts(&self) -> u8 {
        self.tally.hosts()
    }

    fn capacity(&self, cube: u8) -> u64 {
        memory_size(&self.cubes, cube)
    }

    fn get16(&self, cube: u8, place: u64) -> [u8; 16] {
        block_at(&self.cubes, cube, place)
    }

    fn register(&self, cube: u8, number: u64) -> Option<u32> {
        register_at(&self.cubes, cube, number)
    }

    fn tokens(&self, direction: u8) -> TokenRow {
        self.links.row(direction)
    }

    fn counters(&self, direction: u8) -> Counters {
        self.tally.direction(direction)
    }

    fn host_counts(&self, host: u8) -> HostCounts {
        counts_of_host(&self.tally, &self.hosts, host)
    }

    fn cube_counts(&self, cube: u8) -> CubeCounts {
        self.tally.cube(cube)
    }

    fn drained(&self) -> bool {
        self.is_still()
    }
}
