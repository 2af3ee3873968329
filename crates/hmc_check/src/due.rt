//! The line that is due.

ghost use Rattle.std.specs.Prelude.{◌≡◌, ◌≤◌, ◌+◌, ◌∷◌, [], List, ℕ, length, slice_get, option_map, IfOk, OnOk};
ghost use Rattle.hmc_entries.specs.declared.entry.Entry.{Entry};
ghost use Rattle.hmc_entries.specs.Lines.{line_of};
ghost use Rattle.hmc_journal.specs.Lawful.{journal_of};
ghost use Rattle.hmc_journal.specs.Setup.{Setup, setup_of};
ghost use Rattle.hmc_report.specs.Final.{final_lines};
ghost use Rattle.hmc_check.specs.Due.{IsDue};
ghost use Rattle.hmc_check.specs.Following.{IsBefore};
ghost use Rattle.hmc_check.specs.Until.{TakenUntil};
ghost use Rattle.hmc_schedule.specs.RoundsLeft.{steps_left};
ghost use Rattle.hmc_check.specs.Past.{past_of};
ghost use Rattle.hmc_journal.specs.Report.{report_lines};

use crate::checker::take_step;
use crate::past::Past;
use hmc_case::Case;
use hmc_codes::{LineText, Memory};
use hmc_report::{Finished, Lines, Part};
use hmc_schedule::{RoundsLeft, Schedule, Step};
use hmc_units::Workbench;
use std::alloc::Global;

// The line of the latest entry.
fn last_line<B: Workbench>(past: &Past<B>) -> LineText
    ensures { result.bytes ≡ line_of past.now.last }
{
    let mut line = LineText::new();
    past.last().line(&mut line);
    line
}

// The final line that comes after so many others.
fn final_line<N: Finished>(net: &N, before: u32) -> Option<LineText>
    ensures { option_map (λ text. text.bytes) result
        ≡ slice_get (final_lines (N.final_values net.now)) before }
{
    let mut lines = Lines::new(net, Part::Memory);
    let mut left = before;
    'lines: while let Some(line) = lines.next() {
        if left == 0 {
            return Some(line);
        }
        left -= 1;
    }
    None
}

// How far the steps were taken, up to the one that comes after so many others.
#[derive(Clone, Copy)]
enum Until {
    // That one was taken.
    Due,
    // A landing passed before it: none follows.
    Passed,
    // It comes later.
    Later,
}

// Takes the steps of the round at hand, up to the one that comes after so many others. These are
// counted down.
fn take_round<B: Workbench>(
    past: &mut Past<B>,
    rounds: &mut RoundsLeft<'_>,
    round: &[Step],
    more: &mut u32,
) -> Until
    requires { (setup : Setup) × (lines : List Entry) ×
        IsBefore (past_of B.slots past.old) setup lines (steps_left rounds.old round.now) }
    ensures taken { (setup : Setup) (lines : List Entry) →
        IsBefore (past_of B.slots past.old) setup lines (steps_left rounds.old round.now) →
        TakenUntil result (past_of B.slots past.new) setup (steps_left rounds.new [])
        (length lines + more.old) more.new }
    ensures rounds { rounds.new.rounds ≡ rounds.old.rounds }
{
    'steps: for step in round {
        let due = rounds.due(*step);
        let passed = take_step(past, &due);
        if *more == 0 {
            return Until::Due;
        }
        if passed {
            return Until::Passed;
        }
        *more -= 1;
    }
    Until::Later
}

// Takes the steps up to the one that comes after so many others. These are counted down.
fn take_until<B: Workbench>(past: &mut Past<B>, schedule: &Schedule, more: &mut u32) -> Until
    requires { (setup : Setup) × IsBefore (past_of B.slots past.old) setup [] schedule.now }
    ensures { (setup : Setup) → IsBefore (past_of B.slots past.old) setup [] schedule.now →
        TakenUntil result (past_of B.slots past.new) setup [] more.old more.new }
{
    let mut rounds = schedule.in_rounds();
    'rounds: while let Some(round) = rounds.next() {
        match take_round(past, &mut rounds, round, more) {
            Until::Due => return Until::Due,
            Until::Passed => return Until::Passed,
            Until::Later => {}
        }
    }
    Until::Later
}

// The line that comes after so many others.
fn due_after<B: Workbench>(past: &mut Past<B>, schedule: &Schedule, before: u32) -> Option<LineText>
    requires { (setup : Setup) × IsBefore (past_of B.slots past.old) setup [] schedule.now }
    ensures { (setup : Setup) → IsBefore (past_of B.slots past.old) setup [] schedule.now →
        option_map (λ text. text.bytes) result
        ≡ slice_get (report_lines setup (journal_of setup)) before }
{
    let mut more = before;
    match take_until(past, schedule, &mut more) {
        Until::Due => Some(last_line(past)),
        Until::Passed => None,
        Until::Later => {
            past.shows_journal();
            final_line(past, more)
        }
    }
}

// Puts the line with this number, from 1, into a place.
fn put_line<B: Workbench>(
    past: &mut Past<B>,
    schedule: &Schedule,
    line: u32,
    due: &mut Option<LineText>,
)
    requires { (setup : Setup) × IsBefore (past_of B.slots past.old) setup [] schedule.now }
    ensures { (setup : Setup) → IsBefore (past_of B.slots past.old) setup [] schedule.now →
        IsDue setup line (option_map (λ text. text.bytes) due.new) }
{
    if line == 0 {
        *due = None;
        return;
    }
    *due = due_after(past, schedule, line - 1);
}

// The same by a case. It holds no line beside what it keeps of the case: proofs of functions that
// own both take long.
fn find_line<B: Workbench>(
    alloc: Global,
    case: &Case,
    bench: B,
    line: u32,
    due: &mut Option<LineText>,
) -> Result<(), Memory>
    ensures { OnOk result (IsDue (setup_of case.now (B.slots bench)) line
        (option_map (λ text. text.bytes) due.new)) }
{
    let Ok(mut past) = Past::new(alloc, case, bench) else {
        return Err(Memory);
    };
    put_line(&mut past, case.schedule(), line, due);
    Ok(())
}

/// The line that is due: the one with this number, from 1, in the text of the whole lawful journal
/// of a case, with its line feed. `None` where the text has no such line.
///
/// `Memory` if out of memory.
pub fn due_line<B: Workbench>(
    alloc: Global,
    case: &Case,
    bench: B,
    line: u32,
) -> Result<Option<LineText>, Memory>
    ensures { IfOk result (λ due. IsDue (setup_of case.now (B.slots bench)) line
        (option_map (λ text. text.bytes) due)) }
{
    let mut due = None;
    match find_line(alloc, case, bench, line, &mut due) {
        Ok(()) => Ok(due),
        Err(memory) => Err(memory),
    }
}
