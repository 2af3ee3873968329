//! The program runs the case of a tape.

use crate::begun::WithTape;
use crate::drawn::Drawn;
use crate::program::run_program;
use crate::words::{Fragment, push_all};
use hmc_codes::Memory;
use hmc_outside::{MemorySink, MemorySource};
use std::alloc::{AllocError, Global};

/// More bytes than a report of a session has that is driven here.
const ROOM: usize = 1 << 22;

/// The status of the program where it is out of memory.
const MEMORY: u8 = 1;

/// The lines of a case without requests and steps.
const NOTHING: &str = "script = ''\nschedule = ''\n";

// Appends the case without requests and steps, with those of a tape.
fn push_case_of_tape<'a>(
    into: &mut String,
    case: &'a str,
    tape: &'a WithTape,
) -> Result<(), AllocError> {
    let (before, after) = case.split_once(NOTHING).unwrap_or((case, ""));
    push_all(
        into,
        &[
            Fragment::Text(before),
            Fragment::Text("script = '''\n"),
            Fragment::Text(tape.script()),
            Fragment::Text("'''\nschedule = '''\n"),
            Fragment::Text(tape.schedule()),
            Fragment::Text("'''\n"),
            Fragment::Text(after),
        ],
    )
}

// What the program, with both shipped units, writes for this case.
fn report_of(alloc: Global, case: &str) -> Result<MemorySink, Memory> {
    let source = MemorySource::new(alloc, case.as_bytes(), &[])?;
    let mut sink = MemorySink::new(alloc, ROOM, &[])?;
    if run_program(alloc, &["run"], source, &mut sink)? == MEMORY {
        return Err(Memory);
    }
    Ok(sink)
}

// The lines of a report that have these numbers, and all lines after so many.
fn lines_at(
    alloc: Global,
    report: &str,
    numbers: &[u32],
    steps: u32,
) -> Result<String, AllocError> {
    let mut text = String::new(alloc);
    let mut number = 0_u32;
    let mut at = 0_usize;
    for line in report.lines() {
        number = number.saturating_add(1);
        let wanted = numbers.get(at).copied().unwrap_or(0) == number;
        if wanted || number > steps {
            at = at.saturating_add(1);
            push_all(&mut text, &[Fragment::Text(line), Fragment::Text("\n")])?;
        }
    }
    Ok(text)
}

/// Of the program's report of the case of the tape: the lines of the steps that the session's lines
/// are of, and the final lines. The session began with this case, which has no requests and no
/// steps.
pub fn reported(alloc: Global, case: &str, drawn: &Drawn) -> Result<String, Memory> {
    let mut text = String::new(alloc);
    push_case_of_tape(&mut text, case, &drawn.session)?;
    let sink = report_of(alloc, text.as_str())?;
    let Ok(report) = str::from_utf8(sink.as_slice()) else {
        return Err(Memory);
    };
    let lines = lines_at(alloc, report, &drawn.looked, drawn.taken())?;
    Ok(lines)
}
