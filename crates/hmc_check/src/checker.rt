//! The check of a report.

ghost use Rattle.std.specs.Prelude.{◌≡◌, ◌≤◌, ◌+◌, [], ◌∷◌, ◌++◌, List, ℕ, length, IfOk, OnOk};
ghost use Rattle.std.specs.List.{concat};
ghost use Rattle.hmc_entries.specs.declared.entry.Entry.{Entry};
ghost use Rattle.hmc_entries.specs.Lines.{line_of};
ghost use Rattle.hmc_journal.specs.Setup.{Setup, setup_of};
ghost use Rattle.hmc_report.specs.Final.{final_lines};
ghost use Rattle.hmc_check.specs.Past.{past_of};
ghost use Rattle.hmc_check.specs.Differs.{HasCome, FollowsLine, FollowsText};
ghost use Rattle.hmc_check.specs.Verdict.{IsVerdict};
ghost use Rattle.hmc_check.specs.Following.{IsBefore, IsDueStep, IsAfter, IsFollowing, FollowedAll, FollowsRound, FollowsSteps};
ghost use Rattle.hmc_schedule.specs.RoundsLeft.{steps_left};
ghost use Rattle.hmc_schedule.specs.declared.step.Step.{Step};
ghost use Rattle.hmc_journal.specs.Report.{report_text};
ghost use Rattle.hmc_journal.specs.Lawful.{journal_of};

use crate::compare::{after_line, at_end};
use crate::past::Past;
use hmc_case::Case;
use hmc_codes::{Gathered, Line};
use hmc_report::{Finished, Lines, Part};
use hmc_schedule::{RoundsLeft, Schedule, Step};
use hmc_units::Workbench;
use std::alloc::Global;

/// Why a report isn't lawful.
#[derive(Clone, Copy, PartialEq, Eq)]
pub enum CheckFault {
    /// Out of memory.
    Memory,
    /// The report is the text of no whole lawful journal.
    Unlawful {
        /// The first line, from 1, with which no such text goes on: at most 2^32 - 1.
        line: u32,
    },
}

// Takes the step that is due. True where it is a landing that passed: then none follows.
pub(crate) fn take_step<B: Workbench>(past: &mut Past<B>, due: &Step) -> bool
    requires { (setup : Setup) × (lines : List Entry) ×
        IsDueStep (past_of B.slots past.old) setup lines due.now }
    ensures { (setup : Setup) (lines : List Entry) →
        IsDueStep (past_of B.slots past.old) setup lines due.now →
        IsAfter (past_of B.slots past.new) setup lines result }
{
    past.step(due);
    past.last().has_passed()
}

// How many bytes of lines are gathered, and room for one more line is left.
const GATHERED: usize = 6_144;

// How far a report was followed: what is left of it after the bytes that were compared, the lines
// that come next and are gathered, and the number of all entries so far.
#[derive(Drop)]
struct Followed<'a> {
    rest: &'a [u8],
    text: Gathered,
    entries: u32,
}

// Compares the report with the lines that are gathered: then none is. Or the first line that
// differs.
#[inline(never)]
fn compare_text<'a>(report: &'a [u8], followed: &mut Followed<'a>) -> Result<(), u32>
    requires { length followed.old.rest.now ≤ length report.now }
    ensures follows { (text later : List ℕ) →
        HasCome text report.now followed.old.rest.now (followed.old.text.bytes ++ later) →
        FollowsText text report.now followed.new.rest.now later result }
    ensures none { OnOk result (followed.new.text.bytes ≡ []) }
    ensures entries { followed.new.entries ≡ followed.old.entries }
{
    match after_line(report, followed.rest, followed.text.as_str().as_bytes()) {
        Ok(more) => {
            followed.rest = more;
            followed.text.clear();
            Ok(())
        }
        Err(differs) => Err(differs),
    }
}

// Makes room for a line: many lines that are gathered are compared before. Or the first line that
// differs.
#[inline(always)]
fn make_room<'a>(report: &'a [u8], followed: &mut Followed<'a>) -> Result<(), u32>
    requires { length followed.old.rest.now ≤ length report.now }
    ensures follows { (text later : List ℕ) →
        HasCome text report.now followed.old.rest.now (followed.old.text.bytes ++ later) →
        FollowsText text report.now followed.new.rest.now (followed.new.text.bytes ++ later)
        result }
    ensures room { OnOk result (length followed.new.text.bytes + 2048 ≤ 8192) }
    ensures entries { followed.new.entries ≡ followed.old.entries }
{
    if followed.text.len() <= GATHERED {
        return Ok(());
    }
    compare_text(report, followed)
}

// Takes the step that is due, and gathers its line. True where it is a landing that passed; or the
// first line that differs.
#[inline(always)]
fn follow_step<'a, B: Workbench>(
    past: &mut Past<B>,
    due: &Step,
    report: &'a [u8],
    followed: &mut Followed<'a>,
) -> Result<bool, u32>
    requires { (setup : Setup) × (lines : List Entry) × (left : List Step) ×
        IsFollowing (past_of B.slots past.old) setup lines (due.now ∷ left)
        report.now followed.old.rest.now followed.old.text.bytes followed.old.entries }
    ensures { (setup : Setup) (lines : List Entry) (left : List Step) →
        IsFollowing (past_of B.slots past.old) setup lines (due.now ∷ left)
        report.now followed.old.rest.now followed.old.text.bytes followed.old.entries →
        FollowsRound result (past_of B.slots past.new) setup left
        report.now followed.new.rest.now followed.new.text.bytes followed.new.entries }
{
    let passed = take_step(past, due);
    match make_room(report, followed) {
        Ok(()) => {
            past.last().put(&mut followed.text);
            followed.entries += 1;
            Ok(passed)
        }
        Err(differs) => Err(differs),
    }
}

// Follows the report by each step of the round at hand. True where a landing passed: then no
// further step is taken; or the first line that differs.
fn follow_round<'a, B: Workbench>(
    past: &mut Past<B>,
    rounds: &mut RoundsLeft<'_>,
    round: &[Step],
    report: &'a [u8],
    followed: &mut Followed<'a>,
) -> Result<bool, u32>
    requires { (setup : Setup) × (lines : List Entry) ×
        IsFollowing (past_of B.slots past.old) setup lines (steps_left rounds.old round.now)
        report.now followed.old.rest.now followed.old.text.bytes followed.old.entries }
    ensures followed { (setup : Setup) (lines : List Entry) →
        IsFollowing (past_of B.slots past.old) setup lines (steps_left rounds.old round.now)
        report.now followed.old.rest.now followed.old.text.bytes followed.old.entries →
        FollowsRound result (past_of B.slots past.new) setup (steps_left rounds.new [])
        report.now followed.new.rest.now followed.new.text.bytes followed.new.entries }
    ensures rounds { rounds.new.rounds ≡ rounds.old.rounds }
{
    'steps: for step in round {
        let due = rounds.due(*step);
        match follow_step(past, &due, report, followed) {
            Ok(false) => {}
            Ok(true) => return Ok(true),
            Err(differs) => return Err(differs),
        }
    }
    Ok(false)
}

// Follows the report by each round. True where a landing passed: then no further step is taken; or
// the first line that differs.
fn follow_rounds<'a, B: Workbench>(
    past: &mut Past<B>,
    schedule: &Schedule,
    report: &'a [u8],
    followed: &mut Followed<'a>,
) -> Result<bool, u32>
    requires { (setup : Setup) × IsFollowing (past_of B.slots past.old) setup [] schedule.now
        report.now followed.old.rest.now followed.old.text.bytes followed.old.entries }
    ensures { (setup : Setup) → IsFollowing (past_of B.slots past.old) setup [] schedule.now
        report.now followed.old.rest.now followed.old.text.bytes followed.old.entries →
        FollowsRound result (past_of B.slots past.new) setup []
        report.now followed.new.rest.now followed.new.text.bytes followed.new.entries }
{
    let mut rounds = schedule.in_rounds();
    'rounds: while let Some(round) = rounds.next() {
        match follow_round(past, &mut rounds, round, report, followed) {
            Ok(false) => {}
            Ok(true) => return Ok(true),
            Err(differs) => return Err(differs),
        }
    }
    Ok(false)
}

// Compares the report with the line of each step, up to a landing that passed. Gives what is left
// of the report, whether a landing passed, and the number of steps; or the first line that differs.
fn follow_steps<'a, B: Workbench>(
    past: &mut Past<B>,
    schedule: &Schedule,
    report: &'a [u8],
) -> Result<(&'a [u8], bool, u32), u32>
    requires { (setup : Setup) × IsBefore (past_of B.slots past.old) setup [] schedule.now }
    ensures { (setup : Setup) → IsBefore (past_of B.slots past.old) setup [] schedule.now →
        FollowsSteps (past_of B.slots past.new) setup report.now result }
{
    let mut followed = Followed {
        rest: report,
        text: Gathered::new(),
        entries: 0,
    };
    let passed = match follow_rounds(past, schedule, report, &mut followed) {
        Ok(passed) => passed,
        Err(differs) => return Err(differs),
    };
    match compare_text(report, &mut followed) {
        Ok(()) => Ok((followed.rest, passed, followed.entries)),
        Err(differs) => Err(differs),
    }
}

// Compares what is left of the report with the final lines: what is left then, or the first line
// that differs.
fn follow_final<'a, N: Finished>(net: &N, report: &[u8], rest: &'a [u8]) -> Result<&'a [u8], u32>
    requires { length rest.now ≤ length report.now }
    ensures follows { (text : List ℕ) →
        HasCome text report.now rest.now (concat (final_lines (N.final_values net.now))) →
        FollowsLine text report.now [] result }
    ensures fewer { IfOk result (λ more. length more.now ≤ length rest.now) }
{
    let mut left = rest;
    let mut lines = Lines::new(net, Part::Memory);
    'lines: while let Some(line) = lines.next() {
        match after_line(report, left, line.as_str().as_bytes()) {
            Ok(more) => left = more,
            Err(differs) => return Err(differs),
        }
    }
    Ok(left)
}

// The same after the steps: there are no final lines after a landing that passed.
fn finish<'a, B: Workbench>(
    past: &Past<B>,
    report: &[u8],
    rest: &'a [u8],
    passed: bool,
) -> Result<&'a [u8], u32>
    requires { length rest.now ≤ length report.now }
    ensures follows { (setup : Setup) (entries : ℕ) →
        FollowedAll (past_of B.slots past.now) setup report.now rest.now [] passed entries →
        FollowsLine (report_text setup (journal_of setup)) report.now [] result }
    ensures fewer { IfOk result (λ more. length more.now ≤ length rest.now) }
{
    if passed {
        return Ok(rest);
    }
    past.shows_journal();
    follow_final(past, report, rest)
}

// Checks a report by a state in which nothing happened yet.
fn check_in<B: Workbench>(
    past: &mut Past<B>,
    schedule: &Schedule,
    report: &[u8],
) -> Result<u32, CheckFault>
    requires { (setup : Setup) × IsBefore (past_of B.slots past.old) setup [] schedule.now }
    ensures { (setup : Setup) → IsBefore (past_of B.slots past.old) setup [] schedule.now →
        IsVerdict setup report.now result }
{
    let (rest, passed, entries) = match follow_steps(past, schedule, report) {
        Ok(followed) => followed,
        Err(line) => return Err(CheckFault::Unlawful { line }),
    };
    let rest = match finish(past, report, rest, passed) {
        Ok(rest) => rest,
        Err(line) => return Err(CheckFault::Unlawful { line }),
    };
    match at_end(report, rest) {
        None => Ok(entries),
        Some(line) => Err(CheckFault::Unlawful { line }),
    }
}

/// Says whether a report is the text of a whole lawful journal of a case, with the logic units of a
/// bench: then `Ok`, with the number of the journal's entries.
///
/// `Unlawful` if it is the text of none, with the first line of the report with which no such text
/// goes on. A piece after the last line feed is a line. Where the text has all lines of the report
/// and goes on, the line is the one after the last. `Memory` if out of memory.
pub fn check<B: Workbench>(
    alloc: Global,
    case: &Case,
    report: &[u8],
    bench: B,
) -> Result<u32, CheckFault>
    ensures { IsVerdict (setup_of case.now (B.slots bench)) report.now result }
{
    let Ok(mut past) = Past::new(alloc, case, bench) else {
        return Err(CheckFault::Memory);
    };
    check_in(&mut past, case.schedule(), report)
}
