//! The form `check`: whether a report is that of the case before it.

ghost use Rattle.std.specs.Prelude.{◌≤◌, length, vec_len, Err};
ghost use Rattle.hmc_codes.specs.Limits.{most_check_input};
ghost use Rattle.hmc_journal.specs.Setup.{setup_of};
ghost use Rattle.hmc_units.specs.Bench.{most_units};
ghost use Rattle.hmc_replay.specs.Answer.{IsAnswer};
ghost use Rattle.hmc_replay.specs.Answered.{IsLine, Answers};
ghost use Rattle.hmc_replay.specs.CheckAnswer.{no_head_line, lawful_line, unlawful_line, IsJudged, IsOfParts, IsCheckAnswer};
ghost use Rattle.hmc_replay.specs.Runs.{Runs};
ghost use Rattle.hmc_replay.specs.Units.{slots_of};
ghost use Rattle.hmc_replay.specs.declared.form.Form.TheVariants as forms;

use crate::check_input::check_input;
use crate::input::read_input;
use crate::output::number_line;
use crate::run::{RunError, read_case, refuse_line, write_only};
use hmc_case::Case;
use hmc_check::{CheckFault, check};
use hmc_codes::{LineText, MOST_CHECK_INPUT};
use hmc_outside::{Sink, Source};
use hmc_units::{LogicUnit, Slots};
use std::alloc::Global;

// Writes the line of a report that is lawful, and hands it on.
fn write_lawful<O: Sink>(sink: &mut O, entries: u32) -> Result<(), RunError>
    ensures { Answers (IsLine 0 (lawful_line entries)) result O.shows sink.old sink.new }
{
    let mut text = LineText::new();
    number_line(&mut text, "lawful", u64::from(entries));
    match write_only(sink, text.as_str()) {
        Ok(()) => Ok(()),
        Err(_) => Err(RunError::WriteFault),
    }
}

// Writes the line of one that isn't, and hands it on.
fn write_unlawful<O: Sink>(sink: &mut O, number: u32) -> RunError
    ensures { Answers (IsLine 8 (unlawful_line number)) (Err result) O.shows sink.old sink.new }
{
    let mut text = LineText::new();
    number_line(&mut text, "unlawful", u64::from(number));
    match write_only(sink, text.as_str()) {
        Ok(()) => RunError::Unlawful,
        Err(_) => RunError::WriteFault,
    }
}

// Judges a report by a case, and writes the verdict.
fn judge<O: Sink, U: LogicUnit>(
    alloc: Global,
    sink: &mut O,
    case: &Case,
    report: &[u8],
    units: Vec<U>,
) -> Result<(), RunError>
    requires units { vec_len units ≤ most_units }
    requires few { length report.now ≤ most_check_input }
    ensures { Answers (IsJudged (setup_of case.now (slots_of U.meaning units.items)) report.now)
        result O.shows sink.old sink.new }
{
    let bench = Slots::new(alloc, units)?;
    match check(alloc, case, report, bench) {
        Ok(entries) => write_lawful(sink, entries),
        Err(CheckFault::Memory) => Err(RunError::Memory),
        Err(CheckFault::Unlawful { line }) => Err(write_unlawful(sink, line)),
    }
}

// Writes what is to be written for a case and a report.
fn answer_parts<O: Sink, U: LogicUnit>(
    alloc: Global,
    sink: &mut O,
    case: &[u8],
    report: &[u8],
    units: Vec<U>,
) -> Result<(), RunError>
    requires units { vec_len units ≤ most_units }
    requires few { length report.now ≤ most_check_input }
    ensures { Answers (IsOfParts (slots_of U.meaning units.items)
        (record { case = case.now; report = report.now })) result O.shows sink.old sink.new }
{
    let case = read_case(alloc, sink, case)?;
    judge(alloc, sink, &case, report, units)
}

// Writes the line for an input without the length of a case, and hands it on.
fn refuse_headless<O: Sink>(sink: &mut O) -> RunError
    ensures { Answers (IsLine 6 no_head_line) (Err result) O.shows sink.old sink.new }
{
    refuse_line(sink, "bad check 0 head\n")
}

// Writes what is to be written for an input.
fn answer<O: Sink, U: LogicUnit>(
    alloc: Global,
    sink: &mut O,
    input: &[u8],
    units: Vec<U>,
) -> Result<(), RunError>
    requires units { vec_len units ≤ most_units }
    requires few { length input.now ≤ most_check_input }
    ensures { Answers (IsCheckAnswer (slots_of U.meaning units.items) input.now)
        result O.shows sink.old sink.new }
{
    let Some((case, report)) = check_input(input) else {
        return Err(refuse_headless(sink));
    };
    answer_parts(alloc, sink, case, report, units)
}

/// Reads the source to its end, and writes whether the report in its bytes is lawful by the case
/// before it and these units.
pub fn run_check<S: Source, O: Sink, U: LogicUnit>(
    alloc: Global,
    source: &mut S,
    sink: &mut O,
    units: Vec<U>,
) -> Result<(), RunError>
    requires { vec_len units ≤ most_units }
    ensures { Runs most_check_input (IsAnswer forms.Check (slots_of U.meaning units.items))
        S.shows O.shows source.old source.new sink.old sink.new result }
{
    let input = read_input(alloc, source, MOST_CHECK_INPUT)?;
    answer(alloc, sink, &input, units)
}
