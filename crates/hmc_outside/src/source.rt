//! Where input bytes come from.
ghost use Rattle.std.specs.Prelude.{◌≡◌, ◌<◌, ◌≤◌, length, take, true, false, IfOk, OnOk, OnErr};
ghost use Rattle.std.specs.Io.KnownBytes.{Consumes, Keeps, IsAtEnd};
ghost use Rattle.hmc_outside.specs.Raised.{raised};
ghost use Rattle.hmc_outside.specs.Reading.{Stops, GoesOn, Stays, ReadsOnce};
ghost use Rattle.hmc_outside.specs.Views.{SourceView};

use crate::Failed;

/// Gives bytes, a piece at a time.
pub trait Source {
    /// The bytes still to come, and the counts of reads.
    ghost shows: { Self → SourceView };

    /// Puts the next bytes at the front of `into`, and returns how many. It returns 0 only at the
    /// end of the input, or where `into` has no room. After a failed call no byte is lost.
    fn read(&mut self, into: &mut [u8]) -> Result<usize, Failed>
        // The bytes.
        ensures within { IfOk result (λ n. n ≤ length into.new) }
        ensures moved { IfOk result
            (λ n. Consumes (shows self.old).left (shows self.new).left (take n into.new)) }
        ensures ended { IfOk result
            (λ n. n ≡ 0 → 0 < length into.old → IsAtEnd (shows self.new).left) }
        ensures unchanged { OnErr result (Keeps (shows self.old).left (shows self.new).left) }

        // The reads.
        ensures counted { ReadsOnce (shows self.old) (shows self.new) (length into.old) }

        // The faults.
        ensures sound { OnOk result ((shows self.new).faults ≡ (shows self.old).faults) }
        ensures fault { OnErr result ((shows self.new).faults ≡ raised (shows self.old).faults) }
        ensures not_failed { OnOk result ((shows self.new).failed ≡ false) }
        ensures failed { OnErr result ((shows self.new).failed ≡ true) }

        // The stops.
        ensures goes_on { IfOk result (λ n. 0 < n → GoesOn (shows self.old) (shows self.new)) }
        ensures stays { IfOk result
            (λ n. length into.old ≡ 0 → Stays (shows self.old) (shows self.new)) }
        ensures end_stops { IfOk result
            (λ n. n ≡ 0 → 0 < length into.old → Stops (shows self.old) (shows self.new)) }
        ensures fault_stops { OnErr result (Stops (shows self.old) (shows self.new)) };
}
