//! A sink in memory, for the report of a case.

ghost use Rattle.std.specs.Prelude.{◌≡◌};
ghost use Rattle.hmc_outside.specs.Raised.{raised};
ghost use Rattle.hmc_c.specs.Report.{empty_report, report_view};

use hmc_outside::{Failed, Sink};
use std::alloc::Global;

/// The bytes of a report, in memory that grows with them. A write that memory doesn't suffice for
/// takes nothing.
#[derive(Drop)]
pub(crate) struct Report {
    bytes: Vec<u8>,
    writes: u64,
    finishes: u64,
    faults: u64,
    failed: bool,
    finished: bool,
}

// One more, where the count isn't at its last value.
fn one_more(count: u64) -> u64
    ensures { result ≡ raised count }
{
    count.saturating_add(1)
}

impl Report {
    /// An empty one. It takes no memory.
    pub(crate) fn new(alloc: Global) -> Report
        ensures { report_view result ≡ empty_report }
    {
        Report {
            bytes: Vec::new(alloc),
            writes: 0,
            finishes: 0,
            faults: 0,
            failed: false,
            finished: false,
        }
    }

    /// The bytes so far.
    pub(crate) fn bytes(&self) -> &[u8]
        ensures { result.now ≡ self.now.bytes.items }
    {
        &self.bytes
    }
}

impl Sink for Report {
    ghost shows = { report_view };

    fn write(&mut self, bytes: &[u8]) -> Result<(), Failed> {
        self.writes = one_more(self.writes);
        self.finished = false;
        if let Err(_) = self.bytes.extend_from_slice(bytes) {
            self.failed = true;
            self.faults = one_more(self.faults);
            return Err(Failed);
        }
        self.failed = false;
        Ok(())
    }

    fn finish(&mut self) -> Result<(), Failed> {
        self.finishes = one_more(self.finishes);
        self.finished = true;
        self.failed = false;
        Ok(())
    }
}
