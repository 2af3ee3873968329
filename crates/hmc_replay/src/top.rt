//! The top call.

ghost use Rattle.std.specs.Prelude.{◌≡◌, ◌≤◌, Some, map, string_bytes, vec_len};
ghost use Rattle.hmc_units.specs.Bench.{most_units};
ghost use Rattle.hmc_replay.specs.Causes.{status_of};
ghost use Rattle.hmc_replay.specs.Complete.{IsComplete};
ghost use Rattle.hmc_replay.specs.Top.{Replayed};
ghost use Rattle.hmc_replay.specs.Units.{slots_of};
ghost use Rattle.hmc_replay.specs.Words.{form_of};
ghost use Rattle.hmc_replay.specs.declared.form.Form.{Form};

use crate::bound::run_bound;
use crate::check::run_check;
use crate::form::{Form, form_of};
use crate::run::{RunError, run, run_made};
use crate::trace::run_trace;
use hmc_outside::{Sink, Source};
use hmc_units::LogicUnit;
use std::alloc::Global;

fn status_of(run: Result<(), RunError>) -> u8
    ensures { result ≡ status_of run }
{
    match run {
        Ok(()) => 0,
        Err(RunError::Memory) => 1,
        Err(RunError::ReadFault) => 3,
        Err(RunError::WriteFault) => 4,
        Err(RunError::TooLong) => 5,
        Err(RunError::BadInput) => 6,
        Err(RunError::Passed) => 7,
        Err(RunError::Unlawful) => 8,
    }
}

// The same for units of any one kind.
fn replay_with<S: Source, O: Sink, U: LogicUnit>(
    alloc: Global,
    words: &[String],
    source: &mut S,
    sink: &mut O,
    units: Vec<U>,
) -> u8
    requires { vec_len units ≤ most_units }
    ensures { Replayed S.shows O.shows (map string_bytes words.now)
        (slots_of U.meaning units.items) source.old source.new sink.old sink.new result }
{
    match form_of(words) {
        Some(Form::Run) => status_of(run(alloc, source, sink, units)),
        Some(Form::Make(number)) => status_of(run_made(alloc, sink, number, units)),
        Some(Form::Check) => status_of(run_check(alloc, source, sink, units)),
        Some(Form::Bound) => status_of(run_bound(alloc, source, sink, units)),
        Some(Form::Trace) => status_of(run_trace(alloc, source, sink)),
        None => 2,
    }
}

/// Does what the words ask for, with logic units, and writes the lines of its answer to the sink,
/// each by one write. After the last line the sink is finished, once. `words` are those after the
/// program's name:
///
/// | Words | Input | Lines |
/// |---|---|---|
/// | `run` | a case | its report: the line of each step, and all final lines |
/// | `make N` | none | the final lines of the case of the number N, from those of tokens on |
/// | `check` | `case N`, a case of N bytes, and a report | whether it is that of the case |
/// | `bound` | a case of one cube and one link | how many packets are under way; rounds to drain |
/// | `trace` | a trace of loads and stores | its script, a line for each request |
///
/// The number of `make` has one to twenty decimal digits and is below 2^64, and `make` reads
/// nothing. The length of a case has one to eight decimal digits, and a line feed ends its line.
/// There are at most eight units: the one at place i is in slot i.
///
/// A source may show the bytes that are left, and a sink the pieces that were written, as those in
/// memory do; standard input and output don't. What is said of bytes holds where they are shown.
///
/// Gives the exit status, 0 to 8. `make` gives 0, 1, 4 or 7. With 7 `make` and `bound` write the
/// line of the landing that passed alone. `trace` doesn't use the units. It and `check` never give
/// 7; a report of a case in which a landing passes may be lawful. Only `check` gives 8.
///
/// | Status | Meaning | Written |
/// |---|---|---|
/// | 0 | the answer is whole | the report, `lawful` and its entries, the bound, the script |
/// | 1 | out of memory | nothing |
/// | 2 | the words are no defined form | nothing, and nothing is read |
/// | 3 | the source failed | nothing |
/// | 4 | the sink failed: a write, or the finish | whole lines, and a prefix of the next; or all |
/// | 5 | the input is longer than 4,194,304 bytes, for `check` 67,108,864 | nothing |
/// | 6 | the input is no valid case, or trace, or has no `case N` | a line with its first fault |
/// | 7 | a check succeeded over flits that masks changed | the lines up to there, or the last |
/// | 8 | the report is not lawful | `unlawful` with the number of its first line that shows it |
///
/// specs/Top has the contract, `Replayed`, with a comment for each promise: what is read, and what
/// is written. specs/Complete says when that comes. docs/case.md has the form of a case, and
/// docs/report.md that of a report.
pub fn replay<S: Source, O: Sink>(
    alloc: Global,
    words: &[String],
    source: &mut S,
    sink: &mut O,
    units: Vec<Box<dyn LogicUnit>>,
) -> u8
    requires { vec_len units ≤ most_units }
    ensures replayed { Replayed S.shows O.shows (map string_bytes words.now)
        (slots_of ⟦<Box<dyn LogicUnit> as LogicUnit>⟧.meaning units.items)
        source.old source.new sink.old sink.new result }
    ensures complete { (form : Form) → form_of (map string_bytes words.now) ≡ Some form →
        IsComplete form (slots_of ⟦<Box<dyn LogicUnit> as LogicUnit>⟧.meaning units.items)
        (S.shows source.old).left result }
{
    replay_with(alloc, words, source, sink, units)
}
