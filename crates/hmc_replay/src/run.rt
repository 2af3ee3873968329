//! From input, or from a number, to output.

ghost use Rattle.std.specs.Prelude.{◌≡◌, ◌≤◌, ◌<◌, ◌∷◌, [], length, vec_len, Ok, Err, MatchResult};
ghost use Rattle.hmc_case.specs.Case.{case_of};
ghost use Rattle.hmc_journal.specs.Setup.{setup_of};
ghost use Rattle.hmc_units.specs.Bench.{most_units};
ghost use Rattle.hmc_codes.specs.Limits.{most_input};
ghost use Rattle.hmc_replay.specs.Answer.{IsAnswer};
ghost use Rattle.hmc_replay.specs.Answered.{IsLine, Answers};
ghost use Rattle.hmc_replay.specs.Causes.{cause_of_input};
ghost use Rattle.hmc_replay.specs.Output.{Delivers};
ghost use Rattle.hmc_replay.specs.Report.{lines_in};
ghost use Rattle.hmc_replay.specs.Reported.{IsReport};
ghost use Rattle.hmc_replay.specs.RunAnswer.{IsRefusal, IsRefused, IsRunAnswer};
ghost use Rattle.hmc_replay.specs.Runs.{Runs};
ghost use Rattle.hmc_replay.specs.Units.{slots_of};
ghost use Rattle.hmc_replay.specs.declared.form.Form.TheVariants as forms;
ghost use Rattle.hmc_replay.specs.declared.run.RunError.TheVariants.{Memory, WriteFault};

use crate::extent::Extent;
use crate::input::{InputError, read_input};
use crate::on::replay_on;
use crate::output::{finish, write_line};
use hmc_case::{Case, CaseFault, CaseKind, Section, bad_line};
use hmc_codes::{LineText, MOST_INPUT, Memory};
use hmc_make::make;
use hmc_outside::{Failed, Sink, Source};
use hmc_units::{LogicUnit, Slots};
use std::alloc::Global;

/// Why a run ended early.
#[derive(Clone, Copy)]
pub enum RunError {
    /// Out of memory.
    Memory,
    /// The source failed.
    ReadFault,
    /// The sink failed.
    WriteFault,
    /// The source has more bytes than an input may have.
    TooLong,
    /// The input is not a valid case, or trace, or has no length of a case before a report.
    BadInput,
    /// A landing passed: a check succeeded over flits that a mask changed.
    Passed,
    /// The report is not lawful.
    Unlawful,
}

impl From<InputError> for RunError {
    ghost from_gives = { λ e r. r ≡ cause_of_input e };

    fn from(error: InputError) -> Self {
        match error {
            InputError::Memory => RunError::Memory,
            InputError::Fault => RunError::ReadFault,
            InputError::TooLong => RunError::TooLong,
        }
    }
}

impl From<Memory> for RunError {
    ghost from_gives = { λ _ r. r ≡ Memory };

    fn from(_: Memory) -> Self {
        RunError::Memory
    }
}

/// Writes a line, and hands it on.
pub fn write_only<O: Sink>(sink: &mut O, line: &str) -> Result<(), Failed>
    requires { 0 < length line.now }
    ensures { Delivers result (O.shows sink.old) (O.shows sink.new) (line.now ∷ []) }
{
    write_line(sink, line)?;
    finish(sink)
}

/// Writes the line for a bad input, and hands it on.
pub fn refuse_line<O: Sink>(sink: &mut O, line: &str) -> RunError
    requires { 0 < length line.now }
    ensures { Answers (IsLine 6 line.now) (Err result) O.shows sink.old sink.new }
{
    match write_only(sink, line) {
        Ok(()) => RunError::BadInput,
        Err(_) => RunError::WriteFault,
    }
}

// Writes the line for what is not a valid case, and hands it on.
fn refuse<O: Sink>(sink: &mut O, section: Section, line: u32, kind: CaseKind) -> RunError
    ensures { Answers (IsRefusal (record { section = section; line = line; kind = kind }))
        (Err result) O.shows sink.old sink.new }
{
    let mut text = LineText::new();
    bad_line(&mut text, section, line, kind);
    refuse_line(sink, text.as_str())
}

/// Reads a case. For what is not a valid one it writes the line of the first fault, and hands it
/// on. Out of memory it writes nothing.
pub fn read_case<O: Sink>(alloc: Global, sink: &mut O, input: &[u8]) -> Result<Case, RunError>
    ensures { MatchResult result
        (λ case. (case_of input.now ≡ Ok case) × (sink.new ≡ sink.old))
        (λ error. Answers (IsRefused input.now) (Err error) O.shows sink.old sink.new) }
{
    match Case::read(alloc, input) {
        Ok(case) => Ok(case),
        Err(CaseFault::Memory) => Err(RunError::Memory),
        Err(
            CaseFault::Bad {
                section,
                line,
                kind,
            },
        ) => Err(refuse(sink, section, line, kind)),
    }
}

/// Replays a case with units, and writes its report. Out of memory it writes nothing. `Passed`
/// where a landing passed; the report then ends with its line.
pub fn report<O: Sink, U: LogicUnit>(
    alloc: Global,
    sink: &mut O,
    extent: Extent,
    case: &Case,
    units: Vec<U>,
) -> Result<(), RunError>
    requires { vec_len units ≤ most_units }
    ensures { Answers (IsReport (setup_of case.now (slots_of U.meaning units.items))
        (lines_in extent (setup_of case.now (slots_of U.meaning units.items))))
        result O.shows sink.old sink.new }
{
    let bench = Slots::new(alloc, units)?;
    let (ended, _) = replay_on(alloc, sink, extent, case, bench)?;
    match ended {
        Ok(true) => Err(RunError::Passed),
        Ok(false) => Ok(()),
        Err(_) => Err(RunError::WriteFault),
    }
}

// Writes what is to be written for an input.
fn answer<O: Sink, U: LogicUnit>(
    alloc: Global,
    sink: &mut O,
    input: &[u8],
    units: Vec<U>,
) -> Result<(), RunError>
    requires { vec_len units ≤ most_units }
    ensures { Answers (IsRunAnswer (slots_of U.meaning units.items) input.now)
        result O.shows sink.old sink.new }
{
    let case = read_case(alloc, sink, input)?;
    report(alloc, sink, Extent::Whole, &case, units)
}

/// Reads the source to its end, and writes what is to be written for its bytes and these units.
pub fn run<S: Source, O: Sink, U: LogicUnit>(
    alloc: Global,
    source: &mut S,
    sink: &mut O,
    units: Vec<U>,
) -> Result<(), RunError>
    requires { vec_len units ≤ most_units }
    ensures { Runs most_input (IsAnswer forms.Run (slots_of U.meaning units.items))
        S.shows O.shows source.old source.new sink.old sink.new result }
{
    let input = read_input(alloc, source, MOST_INPUT)?;
    answer(alloc, sink, &input, units)
}

/// Makes the case of a number, and writes its short report with these units.
pub fn run_made<O: Sink, U: LogicUnit>(
    alloc: Global,
    sink: &mut O,
    number: u64,
    units: Vec<U>,
) -> Result<(), RunError>
    requires { vec_len units ≤ most_units }
    ensures { Answers (IsAnswer (forms.Make number) (slots_of U.meaning units.items) [])
        result O.shows sink.old sink.new }
{
    let case = make(alloc, number)?;
    report(alloc, sink, Extent::Short, &case, units)
}
