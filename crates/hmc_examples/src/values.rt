//! Values of loads: the entries of reports give them to the loads of traces, and rows of
//! `traces/values.txt` say which.

ghost use Rattle.std.specs.Prelude.{◌≡◌, IfOk, option_map, string_bytes};
ghost use Rattle.hmc_examples.specs.Values.{value_text};

use crate::orders::Order;
use crate::reading::{Contents, contents_of};
use crate::words::{
    Fragment, first_word, is_same, number_of, push_all, push_all_hold, push_differs,
};
use hmc_entries::Entry;
use hmc_trace::{Compiled, compile, value, values};
use std::alloc::{AllocError, Global};
use std::io;
use std::rt::Files;

// A row: a trace and its report, how many lines of the report are read, and the values of the
// loads then, in hexadecimal digits, or `unknown`.
#[derive(Drop)]
struct Row<'a> {
    name: &'a str,
    lines: usize,
    values: &'a str,
}

// The row of a line `NAME LINES = VALUES`, if it is one.
fn row_of(line: &str) -> Option<Row<'_>> {
    let (name, rest) = first_word(line);
    let (lines, rest) = first_word(rest);
    let (_, values) = first_word(rest);
    let lines = number_of(lines)? as usize;
    Some(Row {
        name,
        lines,
        values,
    })
}

// The entries of the first lines of a report.
fn known_entries(alloc: Global, report: &str, most: usize) -> Result<Vec<Entry>, AllocError> {
    let mut journal = Vec::new(alloc);
    for (place, line) in report.lines().enumerate() {
        if place >= most {
            return Ok(journal);
        }
        let Some(entry) = Entry::parse(line) else {
            continue;
        };
        append(&mut journal, entry)?;
    }
    Ok(journal)
}

fn append<T: Copy>(items: &mut Vec<T>, item: T) -> Result<(), AllocError> {
    items.push(item)?;
    Ok(())
}

// The digits of a value, or `unknown`.
fn value_text(alloc: Global, found: &Option<Vec<u8>>) -> Result<String, AllocError>
    ensures { IfOk result (λ text.
        string_bytes text ≡ value_text (option_map (λ bytes. bytes.items) found.now)) }
{
    match found {
        Some(bytes) => hex::encode(alloc, bytes.as_slice()),
        None => String::from_str(alloc, "unknown"),
    }
}

// Whether the value that is found for one load alone has these digits.
fn is_value(
    alloc: Global,
    compiled: &Compiled,
    load: u32,
    journal: &[Entry],
    text: &str,
) -> Result<bool, AllocError> {
    if load as usize >= compiled.loads().len() {
        return Ok(false);
    }
    match value(alloc, compiled, load, journal) {
        Ok(found) => Ok(is_same(value_text(alloc, &found)?.as_str(), text)),
        Err(_) => Ok(false),
    }
}

// The values of all loads, each with a semicolon after it, or `differs` where `value` gives another
// one for a load.
fn all_values(alloc: Global, compiled: &Compiled, journal: &[Entry]) -> Result<String, AllocError> {
    let mut text = String::new(alloc);
    let Ok(found) = values(alloc, compiled, journal) else {
        return String::from_str(alloc, "memory");
    };
    let mut load = 0_u32;
    for one in found.iter() {
        let digits = value_text(alloc, one)?;
        if is_value(alloc, compiled, load, journal, digits.as_str())? {
            push_all(
                &mut text,
                &[Fragment::Text(digits.as_str()), Fragment::Text(";")],
            )?;
        } else {
            text.push_str("differs;")?;
        }
        load = load.saturating_add(1);
    }
    Ok(text)
}

// The values of the loads of a trace by a journal, each with a semicolon after it.
fn values_text(alloc: Global, trace: &str, journal: &[Entry]) -> Result<String, AllocError> {
    match compile(alloc, trace) {
        Ok(compiled) => all_values(alloc, &compiled, journal),
        Err(_) => String::from_str(alloc, "no trace"),
    }
}

// Whether the values of a row are those that the first lines of its report give.
fn row_holds(alloc: Global, row: &Row<'_>, contents: &Contents) -> Result<bool, AllocError> {
    let journal = known_entries(alloc, contents.stored.as_str(), row.lines)?;
    let values = values_text(alloc, contents.input.as_str(), &journal)?;
    Ok(is_same(values.as_str(), row.values))
}

/// Appends how many rows of the table hold, or which is the first that doesn't.
pub fn push_values(
    rt: &(impl Files + AllocGlobal),
    order: &Order<'_>,
    table: &str,
    into: &mut String,
) -> Result<(), io::Error> {
    let mut count = 0_u64;
    for line in table.lines() {
        let Some(row) = row_of(line) else {
            continue;
        };
        let contents = contents_of(rt, row.name, ".trace", ".report")?;
        if !row_holds(rt.alloc(), &row, &contents)? {
            push_differs(into, order.name, line)?;
            return Ok(());
        }
        count = count.saturating_add(1);
    }
    push_all_hold(into, order.name, count)?;
    Ok(())
}
