//! A source in memory, which fails at listed calls.
ghost use Rattle.std.specs.Prelude.{◌≡◌, ◌<◌, ◌≤◌, ◌↔◌, ◌++◌, length, take, drop, min, true, false, Contains, IsTrue, IsErr, IfOk, OnOk, OnErr};
ghost use Rattle.std.specs.Io.KnownBytes.{Consumes, Keeps, IsAtEnd};
ghost use Rattle.hmc_outside.specs.Raised.{raised};
ghost use Rattle.hmc_outside.specs.Reading.{Stops, GoesOn, Stays, ReadsOnce};
ghost use Rattle.hmc_outside.specs.SourceState.{view_of, opened, after_read, after_failure};

use crate::counts::{ReadCounts, one_more};
use crate::{Failed, Source};
use hmc_codes::Memory;
use std::alloc::Global;
use std::marker::Model;

/// Bytes in memory. Its calls of `read` are numbered from 1. The listed calls fail, and each other
/// call gives as many bytes as are left and fit.
#[derive(Drop)]
pub struct MemorySource {
    bytes: Vec<u8>,
    given: usize,
    failing: Vec<u32>,
    counts: ReadCounts,
}

impl Model for MemorySource {
    ghost use Rattle.std.specs.Prelude.{◌≤◌, drop, length};
    ghost use Rattle.hmc_outside.specs.SourceState.{SourceState};

    ghost Value = { SourceState };

    ghost view = { λ s. record {
      left = drop s.given s.bytes.items;
      failing = s.failing.items;
      counts = s.counts;
    } };

    ghost invariant = { λ s. s.given ≤ length s.bytes.items };
}

impl MemorySource {
    /// A source of these bytes, of which the calls with these numbers will fail.
    pub fn new(alloc: Global, bytes: &[u8], failing: &[u32]) -> Result<MemorySource, Memory>
        ensures { IfOk result (λ source. source ≡ opened bytes.now failing.now) }
    {
        Ok(MemorySource {
            bytes: Vec::from_slice(alloc, bytes)?,
            given: 0,
            failing: Vec::from_slice(alloc, failing)?,
            counts: ReadCounts::new(),
        })
    }

    /// How many calls were made.
    pub fn reads(&self) -> u64
        ensures { result ≡ self.now.counts.reads }
    {
        self.counts.reads
    }

    /// How many calls have failed.
    pub fn faults(&self) -> u64
        ensures { result ≡ self.now.counts.faults }
    {
        self.counts.faults
    }
}

impl Source for MemorySource {
    ghost shows = { view_of };

    fn read(&mut self, into: &mut [u8]) -> Result<usize, Failed>
        // As at each source.
        ensures within { IfOk result (λ n. n ≤ length into.new) }
        ensures moved { IfOk result
            (λ n. Consumes (view_of self.old).left (view_of self.new).left (take n into.new)) }
        ensures ended { IfOk result
            (λ n. n ≡ 0 → 0 < length into.old → IsAtEnd (view_of self.new).left) }
        ensures unchanged { OnErr result (Keeps (view_of self.old).left (view_of self.new).left) }
        ensures counted { ReadsOnce (view_of self.old) (view_of self.new) (length into.old) }
        ensures sound { OnOk result ((view_of self.new).faults ≡ (view_of self.old).faults) }
        ensures fault { OnErr result
            ((view_of self.new).faults ≡ raised (view_of self.old).faults) }
        ensures not_failed { OnOk result ((view_of self.new).failed ≡ false) }
        ensures failed { OnErr result ((view_of self.new).failed ≡ true) }
        ensures goes_on { IfOk result (λ n. 0 < n → GoesOn (view_of self.old) (view_of self.new)) }
        ensures stays { IfOk result
            (λ n. length into.old ≡ 0 → Stays (view_of self.old) (view_of self.new)) }
        ensures end_stops { IfOk result
            (λ n. n ≡ 0 → 0 < length into.old → Stops (view_of self.old) (view_of self.new)) }
        ensures fault_stops { OnErr result (Stops (view_of self.old) (view_of self.new)) }

        // Exactly.
        ensures fails { IsErr result ↔ Contains self.old.failing (raised self.old.counts.reads) }
        ensures count { IfOk result (λ n. n ≡ min (length self.old.left) (length into.old)) }
        ensures given { IfOk result (λ n. into.new ≡ take n self.old.left ++ drop n into.old) }
        ensures after { IfOk result (λ n. self.new ≡ after_read self.old n (length into.old)) }
        ensures after_fault { OnErr result (self.new ≡ after_failure self.old (length into.old)) }
        ensures untouched { OnErr result (into.new ≡ into.old) }
    {
        if is_listed(&self.failing, one_more(self.counts.reads)) {
            self.counts.count_fault(into.len());
            return Err(Failed);
        }
        let count = give(&self.bytes[self.given..], into);
        self.given += count;
        self.counts.count_read(count, into.len());
        Ok(count)
    }
}

fn is_listed(failing: &[u32], call: u64) -> bool
    ensures { IsTrue result ↔ Contains failing.now call }
{
    failing.iter().any(|&listed| u64::from(listed) == call)
}

// Puts as many of the next bytes as fit at the front of `into`.
fn give(next: &[u8], into: &mut [u8]) -> usize
    ensures count { result ≡ min (length next.now) (length into.old) }
    ensures given { into.new ≡ take result next.now ++ drop result into.old }
    ensures front { take result into.new ≡ take result next.now }
    ensures length { length into.new ≡ length into.old }
{
    let count = next.len().min(into.len());
    into[..count].copy_from_slice(&next[..count]);
    count
}
