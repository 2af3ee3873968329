//! Sources and sinks that fail while the program runs a case, which has its report beside it.

use crate::orders::Order;
use crate::program::answers;
use crate::reading::Contents;
use crate::words::{Fragment, push_all};
use hmc_codes::Memory;
use hmc_outside::{MemorySink, MemorySource};
use std::alloc::Global;

/// The status of a source that failed.
const READ: u8 = 3;

/// The status of a sink that failed.
const WRITE: u8 = 4;

/// More bytes than any report has that is written here.
const ROOM: usize = 1 << 18;

// Whether a run of a case ends with this status and has written this text. The source fails at
// these calls, and the sink at these, after so many bytes each.
fn run_is(
    alloc: Global,
    case: &[u8],
    reads: &[u32],
    writes: &[(u32, usize)],
    status: u8,
    text: &[u8],
) -> Result<bool, Memory> {
    let source = MemorySource::new(alloc, case, reads)?;
    let sink = MemorySink::new(alloc, ROOM, writes)?;
    answers(alloc, &["run"], source, sink, status, text)
}

// Whether a write that fails, and takes this many bytes, leaves these and the bytes before it.
fn keeps_taken(
    alloc: Global,
    contents: &Contents,
    call: u32,
    before: usize,
    taken: usize,
) -> Result<bool, Memory> {
    let report = contents.stored.as_bytes();
    let text = report.get(..before.saturating_add(taken)).unwrap_or(report);
    run_is(
        alloc,
        contents.input.as_bytes(),
        &[],
        &[(call, taken)],
        WRITE,
        text,
    )
}

// Whether the write of this number is that of the line that begins after so many bytes: it may fail
// with none, one and all of its bytes taken.
fn is_one_write(
    alloc: Global,
    contents: &Contents,
    call: u32,
    before: usize,
    len: usize,
) -> Result<bool, Memory> {
    for taken in [0, 1, len] {
        if !keeps_taken(alloc, contents, call, before, taken)? {
            return Ok(false);
        }
    }
    Ok(true)
}

// How many lines of the report, from the first on, are one write each.
fn lines_written(alloc: Global, contents: &Contents) -> Result<u32, Memory> {
    let mut count = 0_u32;
    let mut before = 0_usize;
    for line in contents.stored.as_str().lines() {
        let call = count.saturating_add(1);
        let len = line.len().saturating_add(1);
        if !is_one_write(alloc, contents, call, before, len)? {
            return Ok(count);
        }
        count = call;
        before = before.saturating_add(len);
    }
    Ok(count)
}

// Whether no write comes after so many: one that would fail leaves the whole report.
fn ends_after(alloc: Global, contents: &Contents, count: u32) -> Result<bool, Memory> {
    let (case, report) = (contents.input.as_bytes(), contents.stored.as_bytes());
    let next = count.saturating_add(1);
    run_is(alloc, case, &[], &[(next, 0)], 0, report)
}

// Whether the first read gets the case, the second one finds its end, and no third one comes.
fn reads_twice(alloc: Global, contents: &Contents) -> Result<bool, Memory> {
    let (case, report) = (contents.input.as_bytes(), contents.stored.as_bytes());
    for call in [1, 2] {
        if !run_is(alloc, case, &[call], &[], READ, b"")? {
            return Ok(false);
        }
    }
    run_is(alloc, case, &[3], &[], 0, report)
}

/// Appends whether a case is read as it should be.
pub fn push_reads(
    alloc: Global,
    order: &Order<'_>,
    contents: &Contents,
    into: &mut String,
) -> Result<(), Memory> {
    let word = if reads_twice(alloc, contents)? {
        ": two\n"
    } else {
        ": others\n"
    };
    push_all(
        into,
        &[
            Fragment::Text("reads of "),
            Fragment::Text(order.name),
            Fragment::Text(word),
        ],
    )?;
    Ok(())
}

/// Appends how many lines of a report are one write each, and whether another write follows.
pub fn push_writes(
    alloc: Global,
    order: &Order<'_>,
    contents: &Contents,
    into: &mut String,
) -> Result<(), Memory> {
    let count = lines_written(alloc, contents)?;
    let end = if ends_after(alloc, contents, count)? {
        ", and no other\n"
    } else {
        ", and others\n"
    };
    push_all(
        into,
        &[
            Fragment::Text("writes of "),
            Fragment::Text(order.name),
            Fragment::Text(": "),
            Fragment::Number(count as u64),
            Fragment::Text(end),
        ],
    )?;
    Ok(())
}
