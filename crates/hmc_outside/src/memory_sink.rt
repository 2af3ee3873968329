//! A sink in memory, which fails at listed calls and where its room ends.
ghost use Rattle.std.specs.Prelude.{◌≡◌, ◌⊎◌, ◌<◌, ◌≤◌, ◌↔◌, [], length, take, min, map, true, false, IsOk, IsErr, IsSome, IfOk, IfNone, IfSome, OnOk, OnErr};
ghost use Rattle.std.specs.List.{concat};
ghost use Rattle.std.specs.Io.KnownBytes.{Appends};
ghost use Rattle.hmc_outside.specs.Finish.{Finishes};
ghost use Rattle.hmc_outside.specs.Pieces.{pieces_of, with_pieces, WritesPrefix};
ghost use Rattle.hmc_outside.specs.Raised.{raised};
ghost use Rattle.hmc_outside.specs.SinkState.{view_of, opened, limit_of, next_limit, space_of, after_write, after_failure, after_finish};

use crate::counts::{CallCounts, one_more};
use crate::pieces::Pieces;
use crate::{Failed, Sink};
use hmc_codes::Memory;
use std::alloc::Global;
use std::marker::Model;

/// Room for bytes in memory. Its calls of `write` are numbered from 1. A pair `(call, limit)` says
/// that this call fails and takes at most `limit` bytes; of two pairs of one call the first counts.
/// Each other call of `write` takes all its bytes, or fails and takes none where they don't fit.
/// `finish` never fails, since nothing is gathered, and has no number.
#[derive(Drop)]
pub struct MemorySink {
    pieces: Pieces,
    failing: Vec<(u32, usize)>,
    counts: CallCounts,
}

impl Model for MemorySink {
    ghost use Rattle.hmc_outside.specs.SinkState.{SinkState};

    ghost Value = { SinkState };

    ghost view = { λ s. record {
      pieces = s.pieces.pieces;
      room = s.pieces.room;
      failing = s.failing.items;
      counts = s.counts;
    } };
}

impl MemorySink {
    /// An empty sink for `room` bytes, which are reserved here: its writes take no memory.
    pub fn new(alloc: Global, room: usize, failing: &[(u32, usize)]) -> Result<MemorySink, Memory>
        ensures { IfOk result (λ sink. sink ≡ opened room failing.now) }
    {
        Ok(MemorySink {
            pieces: Pieces::new(alloc, room)?,
            failing: Vec::from_slice(alloc, failing)?,
            counts: CallCounts::new(),
        })
    }

    /// The bytes taken so far.
    pub fn as_slice(&self) -> &[u8]
        ensures held { result.now ≡ concat self.now.pieces }
        ensures within { length (concat self.now.pieces) ≤ self.now.room }
    {
        self.pieces.bytes()
    }

    /// How many of them each write took, except writes that took none.
    pub fn lengths(&self) -> &[usize]
        ensures { result.now ≡ map length self.now.pieces }
    {
        self.pieces.lengths()
    }

    /// How often it was written to.
    pub fn writes(&self) -> u64
        ensures { result ≡ self.now.counts.writes }
    {
        self.counts.writes
    }

    /// How often it was finished.
    pub fn finishes(&self) -> u64
        ensures { result ≡ self.now.counts.finishes }
    {
        self.counts.finishes
    }

    /// How many calls have failed.
    pub fn faults(&self) -> u64
        ensures { result ≡ self.now.counts.faults }
    {
        self.counts.faults
    }
}

impl Sink for MemorySink {
    ghost shows = { view_of };

    fn write(&mut self, bytes: &[u8]) -> Result<(), Failed>
        // As at each sink.
        ensures counted { (view_of self.new).writes ≡ raised (view_of self.old).writes }
        ensures piece { OnOk result
            ((view_of self.new).pieces ≡
            with_pieces (view_of self.old).pieces (pieces_of bytes.now)) }
        ensures appended { OnOk result
            (Appends (view_of self.old).bytes (view_of self.new).bytes bytes.now) }
        ensures prefix { OnErr result
            (WritesPrefix (view_of self.old) (view_of self.new) bytes.now) }
        ensures sound { OnOk result ((view_of self.new).faults ≡ (view_of self.old).faults) }
        ensures fault { OnErr result
            ((view_of self.new).faults ≡ raised (view_of self.old).faults) }
        ensures not_failed { OnOk result ((view_of self.new).failed ≡ false) }
        ensures failed { OnErr result ((view_of self.new).failed ≡ true) }
        ensures finishes { (view_of self.new).finishes ≡ (view_of self.old).finishes }
        ensures not_finished { (view_of self.new).finished ≡ false }

        // Exactly.
        ensures fails { IsErr result ↔
            (IsSome (next_limit self.old) ⊎ (space_of self.old < length bytes.now)) }
        ensures taken { OnOk result (self.new ≡ after_write self.old bytes.now) }
        ensures cut { IfSome (next_limit self.old) (λ limit.
            self.new ≡ after_failure self.old (take (min limit (space_of self.old)) bytes.now)) }
        ensures full { IfNone (next_limit self.old)
            (OnErr result (self.new ≡ after_failure self.old [])) }
    {
        let space = self.pieces.space();
        let fits = bytes.len() <= space;
        let limit = limit_at(&self.failing, one_more(self.counts.writes));
        let count = match limit {
            Some(limit) => limit.min(space).min(bytes.len()),
            None if fits => bytes.len(),
            None => 0,
        };
        self.pieces.add(&bytes[..count]);
        let failed = limit.is_some() || !fits;
        self.counts.count_write(failed);
        if !failed {
            return Ok(());
        }
        Err(Failed)
    }

    fn finish(&mut self) -> Result<(), Failed>
        // As at each sink.
        ensures finished { Finishes (view_of self.old) (view_of self.new) }
        ensures sound { OnOk result ((view_of self.new).faults ≡ (view_of self.old).faults) }
        ensures fault { OnErr result
            ((view_of self.new).faults ≡ raised (view_of self.old).faults) }
        ensures not_failed { OnOk result ((view_of self.new).failed ≡ false) }
        ensures failed { OnErr result ((view_of self.new).failed ≡ true) }

        // Exactly.
        ensures passes { IsOk result }
        ensures after { self.new ≡ after_finish self.old }
    {
        self.counts.count_finish(false);
        Ok(())
    }
}

// How much the first pair of this write names.
fn limit_at(failing: &[(u32, usize)], write: u64) -> Option<usize>
    ensures { result ≡ limit_of failing.now write }
{
    failing
        .iter()
        .find(|pair| u64::from(pair.0) == write)
        .map(|pair| pair.1)
}
