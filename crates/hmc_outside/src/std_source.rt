//! A reader of std as a source.
ghost use Rattle.std.specs.Prelude.{◌≡◌, ◌≢◌, ◌<◌, ◌≤◌, length, take, true, false, IfOk, IfErr, OnOk, OnErr};
ghost use Rattle.std.specs.IoError.{error_kind};
ghost use Rattle.std.specs.Io.KnownBytes.{Consumes, Keeps, IsAtEnd};
ghost use Rattle.hmc_outside.specs.Counts.{unread};
ghost use Rattle.hmc_outside.specs.Raised.{raised};
ghost use Rattle.hmc_outside.specs.Reading.{Stops, GoesOn, Stays, ReadsOnce};
ghost use Rattle.hmc_outside.specs.StdSource.{reader_of, view_with, view_of};

use crate::counts::ReadCounts;
use crate::{Failed, Source};
use std::io;
use std::io::{ErrorKind, Read};

/// What a reader gives. It shows the bytes still to come where the reader does: standard input
/// doesn't.
#[derive(Drop)]
pub struct StdSource<R> {
    reader: R,
    counts: ReadCounts,
}

impl<R: Read> StdSource<R> {
    /// A source before its first call.
    pub fn new(reader: R) -> Self
        ensures reader { reader_of result ≡ reader }
        ensures counts { view_of R.remaining result ≡ view_with (R.remaining reader) unread }
    {
        StdSource {
            reader,
            counts: ReadCounts::new(),
        }
    }

    /// How many calls have failed.
    pub fn faults(&self) -> u64
        ensures { result ≡ (view_of R.remaining self.now).faults }
    {
        self.counts.faults
    }
}

impl<R: Read> Source for StdSource<R> {
    ghost shows = { view_of R.remaining };

    fn read(&mut self, into: &mut [u8]) -> Result<usize, Failed>
        // As at each source.
        ensures within { IfOk result (λ n. n ≤ length into.new) }
        ensures moved { IfOk result (λ n. Consumes
            (view_of R.remaining self.old).left (view_of R.remaining self.new).left
            (take n into.new)) }
        ensures ended { IfOk result
            (λ n. n ≡ 0 → 0 < length into.old → IsAtEnd (view_of R.remaining self.new).left) }
        ensures unchanged { OnErr result
            (Keeps (view_of R.remaining self.old).left (view_of R.remaining self.new).left) }
        ensures counted { ReadsOnce
            (view_of R.remaining self.old) (view_of R.remaining self.new) (length into.old) }
        ensures sound { OnOk result
            ((view_of R.remaining self.new).faults ≡ (view_of R.remaining self.old).faults) }
        ensures fault { OnErr result
            ((view_of R.remaining self.new).faults ≡ raised (view_of R.remaining self.old).faults) }
        ensures not_failed { OnOk result ((view_of R.remaining self.new).failed ≡ false) }
        ensures failed { OnErr result ((view_of R.remaining self.new).failed ≡ true) }
        ensures goes_on { IfOk result
            (λ n. 0 < n → GoesOn (view_of R.remaining self.old) (view_of R.remaining self.new)) }
        ensures stays { IfOk result (λ n. length into.old ≡ 0 →
            Stays (view_of R.remaining self.old) (view_of R.remaining self.new)) }
        ensures end_stops { IfOk result (λ n. n ≡ 0 → 0 < length into.old →
            Stops (view_of R.remaining self.old) (view_of R.remaining self.new)) }
        ensures fault_stops { OnErr result
            (Stops (view_of R.remaining self.old) (view_of R.remaining self.new)) }
    {
        match read_once(&mut self.reader, into) {
            Ok(count) => {
                self.counts.count_read(count, into.len());
                Ok(count)
            }
            Err(_) => {
                self.counts.count_fault(into.len());
                Err(Failed)
            }
        }
    }
}

// One read, tried again where a signal interrupts it: its error is never an interruption.
fn read_once<R: Read>(reader: &mut R, into: &mut [u8]) -> io::Result<usize>
    ensures within { IfOk result (λ n. n ≤ length into.new) }
    ensures length { length into.new ≡ length into.old }
    ensures moved { IfOk result
        (λ n. Consumes (R.remaining reader.old) (R.remaining reader.new) (take n into.new)) }
    ensures ended { IfOk result
        (λ n. n ≡ 0 → 0 < length into.old → IsAtEnd (R.remaining reader.new)) }
    ensures unchanged { OnErr result (Keeps (R.remaining reader.old) (R.remaining reader.new)) }
    ensures tried { IfErr result (λ e. error_kind e ≢ ErrorKind.Interrupted) }
{
    'tries: for _ in 0..u64::MAX {
        match reader.read(into) {
            Ok(count) => return Ok(count),
            Err(e) if e.kind() == ErrorKind::Interrupted => {}
            Err(e) => return Err(e),
        }
    }
    Err(io::Error::from(ErrorKind::TimedOut))
}
