//! Logs of hosts: rows say what each is read as. One that is read, printed, is the same text again.

use crate::orders::Order;
use crate::reading::content_of;
use crate::words::{Fragment, first_word, is_same, push_all, push_all_hold, push_differs};
use hmc_codes::{LineText, Memory};
use hmc_log::{End, Log};
use hmc_verdict::{Subject, SubjectFault};
use std::alloc::{AllocError, Global};
use std::io;
use std::rt::Files;

// A row: a case, a log of its hosts, and what is read.
#[derive(Drop)]
struct Row<'a> {
    case: &'a str,
    log: &'a str,
    reading: &'a str,
}

// The row of a line `CASE LOG = READING`, if it is one.
fn row_of(line: &str) -> Option<Row<'_>> {
    let (case, rest) = first_word(line);
    let (log, rest) = first_word(rest);
    let (sign, reading) = first_word(rest);
    if !is_same(sign, "=") {
        return None;
    }
    Some(Row { case, log, reading })
}

// Appends what the end of a log has.
fn push_end(into: &mut String, end: &End) -> Result<(), AllocError> {
    let last = if end.drained { " drained" } else { " busy" };
    push_all(
        into,
        &[
            Fragment::Text(" blocks "),
            Fragment::Number(end.memory.len() as u64),
            Fragment::Text(" registers "),
            Fragment::Number(end.registers.len() as u64),
            Fragment::Text(last),
        ],
    )
}

// Appends what a log has.
fn push_log(into: &mut String, log: &Log) -> Result<(), AllocError> {
    let entries = log.entries().len() as u64;
    push_all(
        into,
        &[Fragment::Text("entries "), Fragment::Number(entries)],
    )?;
    if let Some(end) = log.ending() {
        push_end(into, end)?;
    }
    into.push_str("\n")
}

// Appends what a log has, or that it is printed as another text.
fn push_printed(alloc: Global, log: &Log, text: &str, into: &mut String) -> Result<(), Memory> {
    let printed = log.print(alloc)?;
    if is_same(printed.as_str(), text) {
        push_log(into, log)?;
    } else {
        into.push_str("differs\n")?;
    }
    Ok(())
}

// Appends the line of a fault.
fn push_fault(into: &mut String, fault: SubjectFault) -> Result<(), AllocError> {
    let mut line = LineText::new();
    fault.print(&mut line);
    into.push_str(line.as_str())
}

// What a log is read as, with a line feed at its end.
fn reading_of(alloc: Global, case: &str, log: &str) -> Result<String, Memory> {
    let mut text = String::new(alloc);
    match Subject::read(alloc, case.as_bytes(), log.as_bytes()) {
        Ok(subject) => push_printed(alloc, subject.log(), log, &mut text)?,
        Err(fault) => push_fault(&mut text, fault)?,
    }
    Ok(text)
}

// Whether a log is read as its row says.
fn row_holds(alloc: Global, row: &Row<'_>, case: &str, log: &str) -> Result<bool, Memory> {
    let found = reading_of(alloc, case, log)?;
    let mut wanted = String::new(alloc);
    push_all(
        &mut wanted,
        &[Fragment::Text(row.reading), Fragment::Text("\n")],
    )?;
    Ok(is_same(found.as_str(), wanted.as_str()))
}

// Whether the log that a row names is read as the row says.
fn file_holds(rt: &(impl Files + AllocGlobal), row: &Row<'_>) -> Result<bool, io::Error> {
    let case = content_of(rt, row.case, ".toml")?;
    let log = content_of(rt, row.log, ".log")?;
    match row_holds(rt.alloc(), row, case.as_str(), log.as_str()) {
        Ok(holds) => Ok(holds),
        Err(_) => Err(io::Error::from(io::ErrorKind::OutOfMemory)),
    }
}

/// Appends how many rows of the table hold, or which is the first that doesn't.
pub fn push_logs(
    rt: &(impl Files + AllocGlobal),
    order: &Order<'_>,
    table: &str,
    into: &mut String,
) -> Result<(), io::Error> {
    let mut count = 0_u64;
    for line in table.lines() {
        let Some(row) = row_of(line) else {
            continue;
        };
        if !file_holds(rt, &row)? {
            push_differs(into, order.name, line)?;
            return Ok(());
        }
        count = count.saturating_add(1);
    }
    push_all_hold(into, order.name, count)?;
    Ok(())
}
