//! What a network with its journal shows at its end.

ghost use Rattle.std.specs.Prelude.{◌≡◌, false};
ghost use Rattle.hmc_journal.specs.Final.{values_of, final_lines_of};
ghost use Rattle.hmc_journal.specs.Lawful.{has_passed};
ghost use Rattle.hmc_journal.specs.Setup.{Setup};
ghost use Rattle.hmc_report.specs.Final.{ending_lines, final_lines};
ghost use Rattle.hmc_net.specs.Finished.{net_values};
ghost use Rattle.hmc_net.specs.Journaled.{NetStandsFor, journaled_of};
ghost use Rattle.hmc_net.specs.NetState.{net_of};

use crate::Net;
use hmc_codes::{Counters, CubeCounts, HostCounts, TokenRow};
use hmc_report::Finished;
use hmc_units::Workbench;

impl<B: Workbench> Net<B> {
    /// Does nothing. Where the network stands for a case, and no landing passed, the final lines of
    /// what it shows are those of its journal, all of them and from tokens on.
    pub fn shows_journal(&self)
        ensures whole { (setup : Setup) → NetStandsFor (journaled_of B.slots self.now) setup →
            has_passed self.now.journal.past ≡ false →
            final_lines (net_values (net_of B.slots self.now.network))
            ≡ final_lines_of setup self.now.journal.past }
        ensures ending { (setup : Setup) → NetStandsFor (journaled_of B.slots self.now) setup →
            has_passed self.now.journal.past ≡ false →
            ending_lines (net_values (net_of B.slots self.now.network))
            ≡ ending_lines (values_of setup self.now.journal.past) }
    {
        self.network.shows_journal();
    }
}

impl<B: Workbench> Finished for Net<B> {
    ghost final_values = { λ n. net_values (net_of B.slots n.network) };

    fn cubes(&self) -> u8 {
        Finished::cubes(&self.network)
    }

    fn directions(&self) -> u8 {
        Finished::directions(&self.network)
    }

    fn hosts(&self) -> u8 {
        Finished::hosts(&self.network)
    }

    fn capacity(&self, cube: u8) -> u64 {
        Finished::capacity(&self.network, cube)
    }

    fn get16(&self, cube: u8, place: u64) -> [u8; 16] {
        Finished::get16(&self.network, cube, place)
    }

    fn register(&self, cube: u8, number: u64) -> Option<u32> {
        Finished::register(&self.network, cube, number)
    }

    fn tokens(&self, direction: u8) -> TokenRow {
        Finished::tokens(&self.network, direction)
    }

    fn counters(&self, direction: u8) -> Counters {
        Finished::counters(&self.network, direction)
    }

    fn host_counts(&self, host: u8) -> HostCounts {
        Finished::host_counts(&self.network, host)
    }

    fn cube_counts(&self, cube: u8) -> CubeCounts {
        Finished::cube_counts(&self.network, cube)
    }

    fn drained(&self) -> bool {
        Finished::drained(&self.network)
    }
}
