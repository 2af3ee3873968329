//! A replay with a bench of the caller's own: it comes back as the steps left it.

use crate::begun::{case_of, units};
use crate::orders::Order;
use crate::reading::Contents;
use crate::words::{Fragment, push_all};
use hmc_case::Case;
use hmc_codes::Memory;
use hmc_outside::MemorySink;
use hmc_replay::{Extent, replay_on};
use hmc_units::{Shipped, Slots, Workbench};
use std::alloc::Global;

/// More than a short report has, and less than a whole one of 100 rounds.
const ROOM: usize = 1_024;

// What the unit of cube 0 with code 1, which counts how often it worked, stamps next; 0 where it is
// gone.
fn stamp_of(bench: Slots<Shipped>) -> u8 {
    let mut bench = bench;
    match bench.work(0, 1, [0; 16], [0; 16]) {
        Some(acted) => acted.block[0],
        None => 0,
    }
}

// The number that this unit stamps next after a replay of a case; 0 where it is gone. A whole
// report breaks off.
fn stamp_after(alloc: Global, case: &Case, extent: Extent) -> Result<u8, Memory> {
    let mut sink = MemorySink::new(alloc, ROOM, &[])?;
    match replay_on(alloc, &mut sink, extent, case, units(alloc)?) {
        Ok((_, bench)) => Ok(stamp_of(bench)),
        Err(memory) => Err(memory),
    }
}

// The same, of the case that a text is.
fn next_stamp(alloc: Global, text: &str, extent: Extent) -> Result<u8, Memory> {
    let case = case_of(alloc, text)?;
    stamp_after(alloc, &case, extent)
}

/// Appends what a unit stamps next, after a replay whose report is whole where the seed is not 0.
pub fn push_stamp(
    alloc: Global,
    order: &Order<'_>,
    contents: &Contents,
    into: &mut String,
) -> Result<(), Memory> {
    let extent = if order.seed > 0 {
        Extent::Whole
    } else {
        Extent::Short
    };
    let next = next_stamp(alloc, contents.input.as_str(), extent)?;
    push_all(
        into,
        &[
            Fragment::Text("stamp after "),
            Fragment::Text(order.name),
            Fragment::Text(", "),
            Fragment::Number(order.seed),
            Fragment::Text(": "),
            Fragment::Number(next as u64),
            Fragment::Text("\n"),
        ],
    )?;
    Ok(())
}
