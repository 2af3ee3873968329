//! The one error of the outside, and the counts of calls and faults.
ghost use Rattle.std.specs.Prelude.{◌≡◌};
ghost use Rattle.hmc_outside.specs.Counts.{unread, once_more, after_count, after_fault, after_write, after_finish, faults_after, opened};
ghost use Rattle.hmc_outside.specs.Raised.{raised};

/// A source or a sink failed in this call.
#[derive(Clone, Copy, PartialEq, Eq)]
pub struct Failed;

/// One more, where the count isn't at its last value.
pub(crate) fn one_more(count: u64) -> u64
    ensures { result ≡ raised count }
{
    count.saturating_add(1)
}

/// What a source counts of its reads: all, those of no bytes, those that failed, those that failed
/// or found the end of the input; and whether the last one did, and whether it failed.
#[derive(Clone, Copy)]
pub(crate) struct ReadCounts {
    pub(crate) reads: u64,
    pub(crate) empty_reads: u64,
    pub(crate) faults: u64,
    pub(crate) stops: u64,
    pub(crate) stopped: bool,
    pub(crate) failed: bool,
}

impl ReadCounts {
    /// Before the first read.
    pub(crate) fn new() -> Self
        ensures { result ≡ unread }
    {
        ReadCounts {
            reads: 0,
            empty_reads: 0,
            faults: 0,
            stops: 0,
            stopped: false,
            failed: false,
        }
    }

    /// A read of so many bytes failed.
    pub(crate) fn count_fault(&mut self, asked: usize)
        ensures { self.new ≡ after_fault self.old asked }
    {
        self.count_once(asked);
        self.faults = one_more(self.faults);
        self.stops = one_more(self.stops);
        self.stopped = true;
        self.failed = true;
    }

    /// A read gave so many bytes of those asked for.
    pub(crate) fn count_read(&mut self, given: usize, asked: usize)
        ensures { self.new ≡ after_count self.old given asked }
    {
        self.count_once(asked);
        self.failed = false;
        if given > 0 {
            self.stopped = false;
        } else if asked > 0 {
            self.stops = one_more(self.stops);
            self.stopped = true;
        }
    }

    // A read of so many bytes.
    fn count_once(&mut self, asked: usize)
        ensures { self.new ≡ once_more self.old asked }
    {
        self.reads = one_more(self.reads);
        if asked == 0 {
            self.empty_reads = one_more(self.empty_reads);
        }
    }
}

/// What a sink counts of its calls: the writes, the finishes, and those of both that failed; and
/// what the last call was: whether it failed, and whether it was a finish.
#[derive(Clone, Copy)]
pub(crate) struct CallCounts {
    pub(crate) writes: u64,
    pub(crate) finishes: u64,
    pub(crate) faults: u64,
    pub(crate) failed: bool,
    pub(crate) finished: bool,
}

impl CallCounts {
    /// Before the first call.
    pub(crate) fn new() -> Self
        ensures { result ≡ opened }
    {
        CallCounts {
            writes: 0,
            finishes: 0,
            faults: 0,
            failed: false,
            finished: false,
        }
    }

    /// A write failed, or did not.
    pub(crate) fn count_write(&mut self, failed: bool)
        ensures { self.new ≡ after_write self.old failed }
    {
        self.writes = one_more(self.writes);
        self.finished = false;
        self.note(failed);
    }

    /// A finish failed, or did not.
    pub(crate) fn count_finish(&mut self, failed: bool)
        ensures { self.new ≡ after_finish self.old failed }
    {
        self.finishes = one_more(self.finishes);
        self.finished = true;
        self.note(failed);
    }

    // The last call failed, or did not.
    fn note(&mut self, failed: bool)
        ensures { self.new ≡
            record self.old { faults = faults_after failed self.old.faults; failed = failed } }
    {
        self.failed = failed;
        if failed {
            self.faults = one_more(self.faults);
        }
    }
}
