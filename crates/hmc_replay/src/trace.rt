//! From a trace to its script.

ghost use Rattle.std.specs.Prelude.{◌≡◌, ◌<◌, ◌∷◌, [], length, map, Err};
ghost use Rattle.hmc_codes.specs.Limits.{most_input};
ghost use Rattle.hmc_script.specs.Text.{item_text};
ghost use Rattle.hmc_trace.specs.Line.{bad_line, no_text_line};
ghost use Rattle.hmc_replay.specs.Answered.{IsLine, Answers};
ghost use Rattle.hmc_replay.specs.Output.{Writes, Delivers};
ghost use Rattle.hmc_replay.specs.Runs.{Runs};
ghost use Rattle.hmc_replay.specs.TraceAnswer.{IsScript, IsTextAnswer, IsTraceAnswer};

use crate::input::read_input;
use crate::output::{finish, write_line};
use crate::run::{RunError, refuse_line};
use hmc_codes::{LineText, MOST_INPUT};
use hmc_outside::{Failed, Sink, Source};
use hmc_script::{Script, item_lines};
use hmc_trace::{TraceFault, TraceKind, bad_line, compile, no_text_line};
use std::alloc::Global;
use std::str::from_utf8;

// Writes the lines of a script.
fn write_items<O: Sink>(sink: &mut O, script: &Script) -> Result<(), Failed>
    ensures { Writes result (O.shows sink.old) (O.shows sink.new) (map item_text script.now) }
{
    let mut text = LineText::new();
    'items: for at in 0..script.len() {
        text.clear();
        let item = script.item(at);
        item_lines(
            &mut text,
            item.host,
            item.fenced,
            item.poisoned,
            &item.request,
        );
        match write_line(sink, text.as_str()) {
            Ok(()) => {}
            Err(failed) => return Err(failed),
        }
    }
    Ok(())
}

// Writes the lines of a script, and hands them on.
fn write_script<O: Sink>(sink: &mut O, script: &Script) -> Result<(), Failed>
    ensures { Delivers result (O.shows sink.old) (O.shows sink.new) (map item_text script.now) }
{
    write_items(sink, script)?;
    finish(sink)
}

// Writes the answer to a trace with this script.
fn answer_script<O: Sink>(sink: &mut O, script: &Script) -> Result<(), RunError>
    ensures { Answers (IsScript script.now) result O.shows sink.old sink.new }
{
    match write_script(sink, script) {
        Ok(()) => Ok(()),
        Err(_) => Err(RunError::WriteFault),
    }
}

// Writes the line of a fault, and hands it on.
fn refuse_trace<O: Sink>(sink: &mut O, line: u32, kind: TraceKind) -> RunError
    ensures { Answers (IsLine 6 (bad_line (line, kind))) (Err result) O.shows sink.old sink.new }
{
    let mut text = LineText::new();
    bad_line(&mut text, line, kind);
    refuse_line(sink, text.as_str())
}

// Writes the line for bytes that are no text, and hands it on.
fn refuse_bytes<O: Sink>(sink: &mut O) -> RunError
    ensures { Answers (IsLine 6 no_text_line) (Err result) O.shows sink.old sink.new }
{
    let mut text = LineText::new();
    no_text_line(&mut text);
    refuse_line(sink, text.as_str())
}

// Writes what is to be written for a text.
fn answer_text<O: Sink>(alloc: Global, sink: &mut O, text: &str) -> Result<(), RunError>
    ensures { Answers (IsTextAnswer text.now) result O.shows sink.old sink.new }
{
    match compile(alloc, text) {
        Ok(compiled) => answer_script(sink, compiled.script()),
        Err(TraceFault::Memory) => Err(RunError::Memory),
        Err(TraceFault::Fault { line, kind }) => Err(refuse_trace(sink, line, kind)),
    }
}

// Writes what is to be written for an input.
fn answer<O: Sink>(alloc: Global, sink: &mut O, input: &[u8]) -> Result<(), RunError>
    ensures { Answers (IsTraceAnswer input.now) result O.shows sink.old sink.new }
{
    let Ok(text) = from_utf8(input) else {
        return Err(refuse_bytes(sink));
    };
    answer_text(alloc, sink, text)
}

/// Reads the source to its end, and writes the script of the trace that its bytes are.
pub fn run_trace<S: Source, O: Sink>(
    alloc: Global,
    source: &mut S,
    sink: &mut O,
) -> Result<(), RunError>
    ensures { Runs most_input IsTraceAnswer
        S.shows O.shows source.old source.new sink.old sink.new result }
{
    let input = read_input(alloc, source, MOST_INPUT)?;
    answer(alloc, sink, &input)
}
