//! What happened to a drawn session, and how its lines compare with those of the report.

use crate::drawn::{Drawn, begin_drawn};
use crate::orders::{Answer, Order};
use crate::reading::Contents;
use crate::replayed::reported;
use crate::words::{Fragment, is_same, push_all};
use hmc_codes::Memory;
use std::alloc::{AllocError, Global};

// How many lines two texts have in common, from their beginnings on.
fn common_lines(one: &[u8], other: &[u8]) -> u64 {
    let mut lines = 0_u64;
    for (place, byte) in one.iter().enumerate() {
        if other.get(place).copied().unwrap_or(0) != *byte {
            return lines;
        }
        if *byte == b'\n' {
            lines = lines.saturating_add(1);
        }
    }
    lines
}

// The line of a text before which it has so many.
fn line_after(text: &str, lines: u64) -> &str {
    text.lines().nth(lines as usize).unwrap_or("no line more")
}

// Appends the lines of two texts before which they have so many in common.
fn push_both<'a>(
    into: &mut String,
    seen: &'a str,
    wanted: &'a str,
    count: u64,
) -> Result<(), AllocError> {
    push_all(
        into,
        &[
            Fragment::Text("  and then these two differ:\n  "),
            Fragment::Text(line_after(seen, count)),
            Fragment::Text("\n  "),
            Fragment::Text(line_after(wanted, count)),
            Fragment::Text("\n"),
        ],
    )
}

// Appends how many lines of a session are as reported, and the first that differs.
fn push_compared(into: &mut String, seen: &str, wanted: &str) -> Result<(), AllocError> {
    let count = common_lines(seen.as_bytes(), wanted.as_bytes());
    push_all(
        into,
        &[
            Fragment::Text("  "),
            Fragment::Number(count),
            Fragment::Text(" lines as run reports them\n"),
        ],
    )?;
    if is_same(seen, wanted) {
        return Ok(());
    }
    push_both(into, seen, wanted, count)
}

// Appends how often something happened to the session of an order.
fn push_happened(into: &mut String, order: &Order<'_>, drawn: &Drawn) -> Result<(), AllocError> {
    let counts = &drawn.counts;
    push_all(
        into,
        &[
            Fragment::Text(order.name),
            Fragment::Text(" "),
            Fragment::Number(order.seed),
            Fragment::Text(": "),
            Fragment::Number(counts.asked),
            Fragment::Text(" requests asked, "),
            Fragment::Number(counts.not_asked),
            Fragment::Text(" not\n  "),
            Fragment::Number(drawn.taken() as u64),
            Fragment::Text(" steps taken, "),
            Fragment::Number(counts.waited),
            Fragment::Text(" waited, "),
            Fragment::Number(counts.refused),
            Fragment::Text(" refused\n"),
        ],
    )
}

// Drives a session from its beginning on, and appends what happened and how its lines compare.
fn push_driven(
    alloc: Global,
    drawn: &mut Drawn,
    order: &Order<'_>,
    case: &str,
    into: &mut Answer,
) -> Result<(), Memory> {
    drawn.take_turns(alloc, order.count)?;
    drawn.look_at_end(alloc)?;
    let wanted = reported(alloc, case, drawn)?;
    into.memory = drawn.counts.memory;
    push_happened(&mut into.text, order, drawn)?;
    push_compared(&mut into.text, drawn.lines.as_str(), wanted.as_str())?;
    Ok(())
}

/// Drives a session, and appends what happened and how its lines compare.
pub fn push_drawn(
    alloc: Global,
    order: &Order<'_>,
    contents: &Contents,
    into: &mut Answer,
) -> Result<(), Memory> {
    let case = contents.input.as_str();
    let mut drawn = begin_drawn(alloc, case, order.seed)?;
    push_driven(alloc, &mut drawn, order, case, into)
}
