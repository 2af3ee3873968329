//! Cases with their reports and bounds, each beside its case. They came from a model in another
//! language, or were found by hand (docs/DECISIONS.md says which).

use crate::orders::{Order, Way};
use crate::program::answers;
use crate::reading::Contents;
use crate::words::{Fragment, push_all};
use hmc_codes::Memory;
use hmc_outside::{MemorySink, MemorySource};
use std::alloc::Global;

/// More bytes than any of the reports has.
const ROOM: usize = 1 << 20;

// Whether the program with this word answers a case with this status and the text beside the case.
fn case_is_answered(
    alloc: Global,
    word: &str,
    contents: &Contents,
    status: u8,
) -> Result<bool, Memory> {
    let source = MemorySource::new(alloc, contents.input.as_bytes(), &[])?;
    let sink = MemorySink::new(alloc, ROOM, &[])?;
    answers(
        alloc,
        &[word],
        source,
        sink,
        status,
        contents.stored.as_bytes(),
    )
}

// Whether the case of a number is run to its end with this report. Its first read would fail, so
// nothing is read.
fn made_is_reported(alloc: Global, number: u64, report: &[u8]) -> Result<bool, Memory> {
    let mut digits = String::new(alloc);
    push_all(&mut digits, &[Fragment::Number(number)])?;
    let source = MemorySource::new(alloc, &[], &[1])?;
    let sink = MemorySink::new(alloc, ROOM, &[])?;
    let words = ["make", digits.as_str()];
    answers(alloc, &words, source, sink, 0, report)
}

// Whether what an order names is answered as the file beside it says. The count is the status.
fn is_as_stored(alloc: Global, order: &Order<'_>, contents: &Contents) -> Result<bool, Memory> {
    let status = (order.count % 256) as u8;
    match order.way {
        Way::Make => made_is_reported(alloc, order.seed, contents.stored.as_bytes()),
        Way::Bound => case_is_answered(alloc, "bound", contents, status),
        _ => case_is_answered(alloc, "run", contents, status),
    }
}

/// Appends whether what an order names is answered as the file beside it says.
pub fn push_stored(
    alloc: Global,
    order: &Order<'_>,
    contents: &Contents,
    into: &mut String,
) -> Result<(), Memory> {
    let word = if is_as_stored(alloc, order, contents)? {
        ": as stored\n"
    } else {
        ": differs\n"
    };
    push_all(
        into,
        &[
            Fragment::Text(order.word),
            Fragment::Text(" of "),
            Fragment::Text(order.name),
            Fragment::Text(word),
        ],
    )?;
    Ok(())
}
