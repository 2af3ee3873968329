//! What is kept at the end, as the final lines show it.

ghost use Rattle.std.specs.Prelude.{◌≡◌, ◌≤◌, ◌<◌, ◌+◌, ◌%◌, ◌^◌, ◌&&◌, List, false, length, slice_get, slice_range};
ghost use Rattle.hmc_entries.specs.declared.entry.Entry.{Entry};
ghost use Rattle.hmc_journal.specs.Final.{final_lines_of};
ghost use Rattle.hmc_journal.specs.Lawful.{has_passed};
ghost use Rattle.hmc_journal.specs.Setup.{Setup};
ghost use Rattle.hmc_report.specs.Final.{final_lines};
ghost use Rattle.hmc_check.specs.Finished.{memory_of, registers_of, is_still, past_values};
ghost use Rattle.hmc_check.specs.Past.{past_of, Keeps};

use crate::past::Past;
use hmc_codes::{Counters, CubeCounts, HostCounts, TokenRow};
use hmc_kept::counts_of_host;
use hmc_report::Finished;
use hmc_serial::Plain;
use hmc_units::Workbench;

const NO_REGISTERS: [u32; 16] = [0; 16];

impl<B: Workbench> Past<B> {
    /// Does nothing. Where no landing passed, the final lines of what is shown are those of the
    /// journal.
    pub fn shows_journal(&self)
        ensures { (setup : Setup) (past : List Entry) →
            Keeps setup past (past_of B.slots self.now) → has_passed past ≡ false →
            final_lines (past_values (past_of B.slots self.now)) ≡ final_lines_of setup past }
    {
        let _ = &self.last;
    }

    // Whether nothing is on its way.
    fn is_still(&self) -> bool
        ensures { result ≡ is_still (past_of B.slots self.now) }
    {
        let ends = self.ends.are_quiet();
        let queues = self.queues.are_empty();
        both(ends, queues)
    }
}

fn both(one: bool, other: bool) -> bool
    ensures { result ≡ (one && other) }
{
    one && other
}

// The number of bytes of a cube.
fn memory_size(plain: &Plain, cube: u8) -> u64
    ensures size { result ≡ length (memory_of plain.now cube) }
    ensures blocks { result % 16 ≡ 0 }
    ensures most { result ≤ 2 ^ 27 }
{
    if usize::from(cube) < plain.cubes() {
        plain.capacity(cube)
    } else {
        0
    }
}

// The 16 bytes of a cube at a multiple of 16.
fn block_at(plain: &Plain, cube: u8, place: u64) -> [u8; 16]
    requires multiple { place % 16 ≡ 0 }
    requires inside { place < length (memory_of plain.now cube) }
    ensures { result ≡ slice_range (memory_of plain.now cube) place (place + 16) }
{
    if usize::from(cube) < plain.cubes() {
        plain.get16(cube, place)
    } else {
        unreachable!()
    }
}

// A register of a cube; `None` if there is none with this number.
fn register_at(plain: &Plain, cube: u8, number: u64) -> Option<u32>
    ensures value { result ≡ slice_get (registers_of plain.now cube) number }
    ensures sixteen { length (registers_of plain.now cube) ≡ 16 }
{
    if usize::from(cube) < plain.cubes() {
        plain.register(cube, number)
    } else {
        NO_REGISTERS.get(number as usize).copied()
    }
}

#[tactic(auto, unfolding(crate::specs::Finished::past_values))]
impl<B: Workbench> Finished for Past<B> {
    ghost final_values = { λ p. past_values (past_of B.slots p) };

    fn cubes(&self) -> u8 {
        self.tally.cubes()
    }

    fn directions(&self) -> u8 {
        self.tally.directions()
    }

    fn hosts(&self) -> u8 {
        self.tally.hosts()
    }

    fn capacity(&self, cube: u8) -> u64 {
        memory_size(&self.plain, cube)
    }

    fn get16(&self, cube: u8, place: u64) -> [u8; 16] {
        block_at(&self.plain, cube, place)
    }

    fn register(&self, cube: u8, number: u64) -> Option<u32> {
        register_at(&self.plain, cube, number)
    }

    fn tokens(&self, direction: u8) -> TokenRow {
        self.ends.row(direction)
    }

    fn counters(&self, direction: u8) -> Counters {
        self.tally.direction(direction)
    }

    fn host_counts(&self, host: u8) -> HostCounts {
        counts_of_host(&self.tally, &self.hosts, host)
    }

    fn cube_counts(&self, cube: u8) -> CubeCounts {
        self.tally.cube(cube)
    }

    fn drained(&self) -> bool {
        self.is_still()
    }
}
