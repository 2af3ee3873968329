//! A replay with a bench of the caller's own.

ghost use Rattle.std.specs.Prelude.{◌≡◌, [], IfOk, OnErr};
ghost use Rattle.hmc_bound.specs.Ends.{EndsDrained};
ghost use Rattle.hmc_journal.specs.Guarantees.{Guarantees};
ghost use Rattle.hmc_journal.specs.Lawful.{journal_of};
ghost use Rattle.hmc_journal.specs.Setup.{setup_of};
ghost use Rattle.hmc_replay.specs.Left.{IsLeft};
ghost use Rattle.hmc_replay.specs.Output.{DeliversReport};
ghost use Rattle.hmc_replay.specs.Report.{passes, lines_in};

use crate::extent::Extent;
use crate::report::write_report;
use hmc_case::Case;
use hmc_codes::Memory;
use hmc_net::Network;
use hmc_outside::{Failed, Sink};
use hmc_units::Workbench;
use std::alloc::Global;

/// Replays a case with a bench, writes the report and hands it on. Returns whether a landing
/// passed, or that the sink failed, and the bench as the steps left it: with a whole report no step
/// is taken before the line of the step before it was written. Out of memory nothing is written,
/// and the bench is lost.
pub fn replay_on<O: Sink, B: Workbench>(
    alloc: Global,
    sink: &mut O,
    extent: Extent,
    case: &Case,
    bench: B,
) -> Result<(Result<bool, Failed>, B), Memory>
    ensures written { IfOk result (λ ended.
        DeliversReport ended.0 (lines_in extent (setup_of case.now (B.slots bench)))
        (passes (setup_of case.now (B.slots bench))) (O.shows sink.old) (O.shows sink.new)) }
    ensures left { IfOk result (λ ended.
        IsLeft ended.0 extent (setup_of case.now (B.slots bench)) (B.slots ended.1)
        (O.shows sink.old) (O.shows sink.new)) }
    ensures guarantees { IfOk result (λ _.
        Guarantees (setup_of case.now (B.slots bench))
        (journal_of (setup_of case.now (B.slots bench)))) }
    ensures drained { IfOk result (λ _. EndsDrained (setup_of case.now (B.slots bench))) }
    ensures memory { OnErr result (sink.new ≡ sink.old) }
{
    let mut network = Network::build(alloc, case, bench)?;
    let ended = write_report(sink, extent, &mut network, case.schedule());
    Ok((ended, network.into_bench()))
}
