//! Runs of IRTRYs of one kind.

ghost use Rattle.std.specs.Prelude.{◌≡◌, ◌<◌, ◌≤◌, ◌+◌, min, if◌then◌else◌};
ghost use Rattle.hmc_packet.specs.declared.kind.Kind.TheVariants.{Start};
ghost use Rattle.hmc_irtry.specs.Runs.{whole_run, same_kind, run_of, after_seen, counted_after, counted_of};

use hmc_packet::Kind;
use std::marker::Model;

/// The IRTRYs of a run that count.
const RUN: u8 = 24;

/// What a flit is in its run.
#[derive(Clone, Copy, PartialEq, Eq)]
pub enum Counted {
    /// One of the first 23, or no IRTRY.
    Below,
    /// The 24th.
    Now,
    /// A later one.
    After,
}

/// How many IRTRYs of one kind came in a row. Contracts see the kind and the number, up to 24.
#[derive(Drop)]
pub struct Runs {
    kind: Kind,
    count: u8,
}

impl Model for Runs {
    ghost use Rattle.hmc_irtry.specs.Runs.{RunFields, IsRun};

    ghost Value = { RunFields };

    ghost view = { λ r. record { kind = r.kind; count = r.count } };

    ghost invariant = { λ r. IsRun (record { kind = r.kind; count = r.count }) };
}

// What one more is, after so many of its kind.
fn counted_after(before: u8) -> Counted
    requires { before ≤ whole_run }
    ensures { result ≡ counted_after before }
{
    let count = before + 1;
    if count < RUN {
        Counted::Below
    } else if count == RUN {
        Counted::Now
    } else {
        Counted::After
    }
}

impl Runs {
    /// No run.
    pub fn new() -> Self
        ensures { result ≡ record { kind = Start; count = 0 } }
    {
        Runs {
            kind: Kind::Start,
            count: 0,
        }
    }

    // How many of this kind came in a row.
    fn of(&self, kind: Kind) -> u8
        ensures value { result ≡ run_of kind self.now }
        ensures few { result ≤ whole_run }
    {
        match (self.kind, kind) {
            (Kind::Start, Kind::Start) | (Kind::Clear, Kind::Clear) => self.count,
            _ => 0,
        }
    }

    /// Counts what a flit alone reads as: an IRTRY of a kind, with its return pointer, or none,
    /// which ends the run.
    pub fn see(&mut self, seen: Option<(Kind, u16)>) -> Counted
        ensures counted { result ≡ counted_of seen self.old }
        ensures left { self.new ≡ after_seen seen self.old }
    {
        let Some((kind, _)) = seen else {
            self.count = 0;
            return Counted::Below;
        };
        let before = self.of(kind);
        self.kind = kind;
        self.count = (before + 1).min(RUN);
        counted_after(before)
    }
}
