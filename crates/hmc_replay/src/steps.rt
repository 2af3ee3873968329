//! The steps of a case, one after another, and the line of each.
//!
//! In the network that is handed in nothing happened yet. No step is taken after a landing that
//! passed.

ghost use Rattle.std.specs.Prelude.{◌≡◌, [], ◌∷◌, List};
ghost use Rattle.hmc_entries.specs.declared.entry.Entry.{Entry};
ghost use Rattle.hmc_entries.specs.Lines.{line_of};
ghost use Rattle.hmc_entries.specs.Text.{lines_of};
ghost use Rattle.hmc_journal.specs.Setup.{Setup};
ghost use Rattle.hmc_net.specs.NetState.{net_of};
ghost use Rattle.hmc_net.specs.Stands.{IsNext};
ghost use Rattle.hmc_outside.specs.Lines.{WritesLines};
ghost use Rattle.hmc_outside.specs.Views.{SinkView};
ghost use Rattle.hmc_replay.specs.Output.{Writes};
ghost use Rattle.hmc_replay.specs.Steps.{step_passed, IsBefore, IsUnstarted, IsAfter, TookAll, TookRound, WroteAll, WroteRound};
ghost use Rattle.hmc_schedule.specs.RoundsLeft.{steps_left};
ghost use Rattle.hmc_schedule.specs.declared.step.Step.{Step};

use hmc_entries::LastEntry;
use hmc_net::{Network, Went};
use hmc_outside::{Failed, Sink};
use hmc_schedule::{RoundsLeft, Schedule, Step};
use hmc_units::Workbench;

// Whether a step is a landing that passed.
fn has_passed(went: Went) -> bool
    ensures { result ≡ step_passed went }
{
    matches!(went, Went::Passed)
}

// Takes the next step. Returns whether it is a landing that passed.
#[inline(always)]
fn take_step<B: Workbench>(network: &mut Network<B>, due: &Step) -> bool
    requires { (setup : Setup) × (past : List Entry) ×
        IsNext (net_of B.slots network.old) setup past due.now }
    ensures { (setup : Setup) (past : List Entry) →
        IsNext (net_of B.slots network.old) setup past due.now →
        IsAfter (net_of B.slots network.new) setup past result }
{
    has_passed(network.step(due))
}

// Takes the steps of the round at hand. Returns whether a landing passed: then none is taken
// after it.
fn take_round<B: Workbench>(
    network: &mut Network<B>,
    rounds: &mut RoundsLeft<'_>,
    round: &[Step],
) -> bool
    requires { (setup : Setup) × (past : List Entry) ×
        IsBefore (net_of B.slots network.old) setup past (steps_left rounds.old round.now) }
    ensures taken { (setup : Setup) (past : List Entry) →
        IsBefore (net_of B.slots network.old) setup past (steps_left rounds.old round.now) →
        TookRound result (net_of B.slots network.new) setup (steps_left rounds.new []) }
    ensures rounds { rounds.new.rounds ≡ rounds.old.rounds }
{
    'steps: for step in round {
        let due = rounds.due(*step);
        if take_step(network, &due) {
            return true;
        }
    }
    false
}

/// Takes all steps. Returns whether a landing passed.
pub fn take_steps<B: Workbench>(network: &mut Network<B>, schedule: &Schedule) -> bool
    requires { IsUnstarted (net_of B.slots network.old) schedule.now }
    ensures { (setup : Setup) → IsBefore (net_of B.slots network.old) setup [] schedule.now →
        TookAll (net_of B.slots network.new) setup result }
{
    let mut rounds = schedule.in_rounds();
    'rounds: while let Some(round) = rounds.next() {
        if take_round(network, &mut rounds, round) {
            return true;
        }
    }
    false
}

/// Writes the line of an entry.
#[inline(always)]
pub fn write_entry<O: Sink>(sink: &mut O, entry: &LastEntry) -> Result<(), Failed>
    ensures { Writes result (O.shows sink.old) (O.shows sink.new) (line_of entry.now ∷ []) }
{
    sink.write_line(entry)
}

// Takes the steps of the round at hand, and writes the line of each before the next one. Returns
// whether a landing passed: then none is taken after it. It stands in its caller's loop, so that
// what a round begins with is done once.
#[inline(always)]
fn write_round<O: Sink, B: Workbench>(
    sink: &mut O,
    network: &mut Network<B>,
    rounds: &mut RoundsLeft<'_>,
    round: &[Step],
) -> Result<bool, Failed>
    requires { (setup : Setup) × (past : List Entry) ×
        IsBefore (net_of B.slots network.old) setup past (steps_left rounds.old round.now) }
    ensures wrote { (setup : Setup) (past : List Entry) (before : SinkView) →
        IsBefore (net_of B.slots network.old) setup past (steps_left rounds.old round.now) →
        WritesLines before (O.shows sink.old) (lines_of past) →
        WroteRound result (net_of B.slots network.new) setup (steps_left rounds.new [])
        before (O.shows sink.new) }
    ensures rounds { rounds.new.rounds ≡ rounds.old.rounds }
{
    'steps: for step in round {
        let due = rounds.due(*step);
        let passed = take_step(network, &due);
        match write_entry(sink, network.last()) {
            Ok(()) => {}
            Err(failed) => return Err(failed),
        }
        if passed {
            return Ok(true);
        }
    }
    Ok(false)
}

/// Takes all steps, and writes the line of each before the next one. Returns whether a landing
/// passed.
pub fn write_steps<O: Sink, B: Workbench>(
    sink: &mut O,
    network: &mut Network<B>,
    schedule: &Schedule,
) -> Result<bool, Failed>
    requires { IsUnstarted (net_of B.slots network.old) schedule.now }
    ensures { (setup : Setup) → IsBefore (net_of B.slots network.old) setup [] schedule.now →
        WroteAll result (net_of B.slots network.new) setup
        (O.shows sink.old) (O.shows sink.new) }
{
    let mut rounds = schedule.in_rounds();
    'rounds: while let Some(round) = rounds.next() {
        match write_round(sink, network, &mut rounds, round) {
            Ok(false) => {}
            Ok(true) => return Ok(true),
            Err(failed) => return Err(failed),
        }
    }
    Ok(false)
}
