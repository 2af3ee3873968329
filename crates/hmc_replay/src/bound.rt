//! The form `bound`: how many packets a case of one cube and one link leaves under way, and so many
//! whole rounds that drain them.

ghost use Rattle.std.specs.Prelude.{◌≤◌, ◌↔◌, [], IsTrue, vec_len, Err};
ghost use Rattle.hmc_codes.specs.Limits.{most_input};
ghost use Rattle.hmc_journal.specs.Setup.{Setup, setup_of};
ghost use Rattle.hmc_rounds.specs.Single.{IsSingle};
ghost use Rattle.hmc_units.specs.Bench.{most_units};
ghost use Rattle.hmc_replay.specs.Answer.{IsAnswer};
ghost use Rattle.hmc_replay.specs.Answered.{Answers};
ghost use Rattle.hmc_replay.specs.BoundAnswer.{IsNotSingle, IsCaseBounded, IsBoundAnswer};
ghost use Rattle.hmc_replay.specs.Runs.{Runs};
ghost use Rattle.hmc_replay.specs.Units.{slots_of};
ghost use Rattle.hmc_replay.specs.declared.form.Form.TheVariants as forms;

use crate::extent::Extent;
use crate::input::read_input;
use crate::run::{RunError, read_case, report, write_only};
use hmc_bound::drains;
use hmc_case::Case;
use hmc_codes::MOST_INPUT;
use hmc_outside::{Sink, Source};
use hmc_units::LogicUnit;
use std::alloc::Global;

// Whether a case has one cube and one link.
fn is_single(case: &Case) -> bool
    ensures { IsTrue result ↔ IsSingle (setup_of case.now []).topology }
{
    case.cubes().len() == 1 && case.links().len() == 1
}

// Writes the fault of a case that has more, and hands it on.
fn refuse_more<O: Sink>(sink: &mut O) -> RunError
    ensures { (setup : Setup) → (IsSingle setup.topology → ⊥) →
        Answers (IsNotSingle setup) (Err result) O.shows sink.old sink.new }
{
    match write_only(sink, "bad net 0 single\n") {
        Ok(()) => RunError::BadInput,
        Err(_) => RunError::WriteFault,
    }
}

// Writes what is to be written for a case.
fn answer_case<O: Sink, U: LogicUnit>(
    alloc: Global,
    sink: &mut O,
    case: &Case,
    units: Vec<U>,
) -> Result<(), RunError>
    requires { vec_len units ≤ most_units }
    ensures { Answers (IsCaseBounded (setup_of case.now (slots_of U.meaning units.items)))
        result O.shows sink.old sink.new }
{
    drains();
    case.invariant();
    if !is_single(case) {
        return Err(refuse_more(sink));
    }
    report(alloc, sink, Extent::Bound, case, units)
}

// Writes what is to be written for an input.
fn answer<O: Sink, U: LogicUnit>(
    alloc: Global,
    sink: &mut O,
    input: &[u8],
    units: Vec<U>,
) -> Result<(), RunError>
    requires { vec_len units ≤ most_units }
    ensures { Answers (IsBoundAnswer (slots_of U.meaning units.items) input.now)
        result O.shows sink.old sink.new }
{
    let case = read_case(alloc, sink, input)?;
    answer_case(alloc, sink, &case, units)
}

/// Reads the source to its end, and writes the bound of its bytes and these units.
pub fn run_bound<S: Source, O: Sink, U: LogicUnit>(
    alloc: Global,
    source: &mut S,
    sink: &mut O,
    units: Vec<U>,
) -> Result<(), RunError>
    requires { vec_len units ≤ most_units }
    ensures { Runs most_input (IsAnswer forms.Bound (slots_of U.meaning units.items))
        S.shows O.shows source.old source.new sink.old sink.new result }
{
    let input = read_input(alloc, source, MOST_INPUT)?;
    answer(alloc, sink, &input, units)
}
