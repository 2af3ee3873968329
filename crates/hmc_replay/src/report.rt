//! The report of a case, in which nothing happened yet: whole, short or its bound.

ghost use Rattle.std.specs.Prelude.{◌≡◌, [], List, false};
ghost use Rattle.hmc_bound.specs.Ends.{EndsDrained};
ghost use Rattle.hmc_entries.specs.declared.entry.Entry.{Entry};
ghost use Rattle.hmc_journal.specs.Guarantees.{Guarantees};
ghost use Rattle.hmc_journal.specs.Lawful.{has_passed, journal_of};
ghost use Rattle.hmc_journal.specs.Setup.{Setup};
ghost use Rattle.hmc_net.specs.NetState.{net_of};
ghost use Rattle.hmc_net.specs.Stands.{StandsFor};
ghost use Rattle.hmc_report.specs.Final.{lines_from};
ghost use Rattle.hmc_replay.specs.Output.{Writes, DeliversReport};
ghost use Rattle.hmc_replay.specs.Report.{passes, report_of, ending_of, end_of, lines_in};
ghost use Rattle.hmc_replay.specs.declared.extent.Extent.TheVariants.{Whole, Short};
ghost use Rattle.hmc_replay.specs.Steps.{IsBefore, IsUnstarted, WritesFromStart, StepsFromStart};

use crate::bound_lines::write_bound;
use crate::extent::Extent;
use crate::output::{finish, write_line};
use crate::steps::{take_steps, write_entry, write_steps};
use hmc_bound::drains;
use hmc_delivery::journal_guarantees;
use hmc_net::Network;
use hmc_outside::{Failed, Sink};
use hmc_report::{Finished, Lines, Part};
use hmc_schedule::Schedule;
use hmc_units::Workbench;

// Writes the final lines from this part on.
fn write_final<O: Sink, N: Finished>(sink: &mut O, net: &N, from: Part) -> Result<(), Failed>
    ensures { Writes result
        (O.shows sink.old) (O.shows sink.new) (lines_from from (N.final_values net.now)) }
{
    let mut lines = Lines::new(net, from);
    'lines: while let Some(line) = lines.next() {
        match write_line(sink, line.as_str()) {
            Ok(()) => {}
            Err(failed) => return Err(failed),
        }
    }
    Ok(())
}

// Writes what follows the lines of the steps in a report of this extent.
fn write_ending<O: Sink, B: Workbench>(
    sink: &mut O,
    extent: Extent,
    network: &Network<B>,
) -> Result<(), Failed>
    ensures { (setup : Setup) (past : List Entry) →
        StandsFor (net_of B.slots network.now) setup past → has_passed past ≡ false →
        Writes result (O.shows sink.old) (O.shows sink.new) (ending_of extent setup past) }
{
    match extent {
        Extent::Whole => write_final(sink, network, Part::Memory),
        Extent::Short => write_final(sink, network, Part::Tokens),
        Extent::Bound => write_bound(sink, network),
    }
}

// In what follows the network is stepped to its end. Returned is whether a landing passed.

// Writes the line of each step, and what follows them.
fn write_whole<O: Sink, B: Workbench>(
    sink: &mut O,
    network: &mut Network<B>,
    schedule: &Schedule,
) -> Result<bool, Failed>
    requires { IsUnstarted (net_of B.slots network.old) schedule.now }
    ensures written { WritesFromStart report_of (net_of B.slots network.old) schedule.now
        result (O.shows sink.old) (O.shows sink.new) }
    ensures stepped { StepsFromStart Whole (net_of B.slots network.old)
        (net_of B.slots network.new) schedule.now result (O.shows sink.old) (O.shows sink.new) }
{
    let passed = write_steps(sink, network, schedule)?;
    if !passed {
        write_ending(sink, Extent::Whole, network)?;
    }
    Ok(passed)
}

// Writes what is due by the extent: the whole report, or what would follow the lines of its steps;
// where a landing passed, that is its line alone.
fn write_lines<O: Sink, B: Workbench>(
    sink: &mut O,
    extent: Extent,
    network: &mut Network<B>,
    schedule: &Schedule,
) -> Result<bool, Failed>
    requires { IsUnstarted (net_of B.slots network.old) schedule.now }
    ensures written { WritesFromStart (lines_in extent) (net_of B.slots network.old) schedule.now
        result (O.shows sink.old) (O.shows sink.new) }
    ensures stepped { StepsFromStart extent (net_of B.slots network.old)
        (net_of B.slots network.new) schedule.now result (O.shows sink.old) (O.shows sink.new) }
{
    if let Extent::Whole = extent {
        return write_whole(sink, network, schedule);
    }
    let passed = take_steps(network, schedule);
    if passed {
        write_entry(sink, network.last())?;
    } else {
        write_ending(sink, extent, network)?;
    }
    Ok(passed)
}

/// Steps the network by this schedule, writes the report and hands it on. Returns whether a landing
/// passed.
pub fn write_report<O: Sink, B: Workbench>(
    sink: &mut O,
    extent: Extent,
    network: &mut Network<B>,
    schedule: &Schedule,
) -> Result<bool, Failed>
    requires { IsUnstarted (net_of B.slots network.old) schedule.now }
    ensures written { (setup : Setup) →
        IsBefore (net_of B.slots network.old) setup [] schedule.now →
        DeliversReport result (lines_in extent setup) (passes setup)
        (O.shows sink.old) (O.shows sink.new) }
    ensures guarantees { (setup : Setup) →
        IsBefore (net_of B.slots network.old) setup [] schedule.now →
        Guarantees setup (journal_of setup) }
    ensures drained { (setup : Setup) →
        IsBefore (net_of B.slots network.old) setup [] schedule.now → EndsDrained setup }
    ensures stepped { StepsFromStart extent (net_of B.slots network.old)
        (net_of B.slots network.new) schedule.now result (O.shows sink.old) (O.shows sink.new) }
{
    journal_guarantees();
    drains();
    let passed = write_lines(sink, extent, network, schedule)?;
    finish(sink)?;
    Ok(passed)
}
