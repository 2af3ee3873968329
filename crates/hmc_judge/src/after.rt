//! The states kept after one more entry.

ghost use Rattle.std.specs.Prelude.{◌≡◌, IfOk, length, map};
ghost use Rattle.hmc_search.specs.Alone.{alone};
ghost use Rattle.hmc_search.specs.Kept.{gathered, given_each, retires, takes};
ghost use Rattle.hmc_judge.specs.Steps.{after_entry};

use crate::{Holder, retires, takes};
use hmc_codes::{Answer, Memory, Shape};
use hmc_entries::Entry;
use hmc_search::Waiting;
use std::alloc::Global;

// A request was given in each state.
fn after_gave<P: Holder>(alloc: Global, waiting: &Waiting, holders: &[P]) -> Result<Vec<P>, Memory>
    ensures { IfOk result (λ after. map P.point after.items
        ≡ given_each waiting.now (map P.point holders.now)) }
{
    let mut after = Vec::new(alloc);
    'holders: for at in 0..holders.len() {
        let given = holders[at].given(*waiting)?;
        after.push(given)?;
    }
    Ok(after)
}

// An answer was taken.
fn after_took<P: Holder>(
    alloc: Global,
    shapes: &[Shape],
    host: u8,
    tag: u16,
    answer: &Answer,
    holders: &[P],
) -> Result<Vec<P>, Memory>
    ensures { IfOk result (λ after. map P.point after.items ≡ gathered
        (λ point. takes (alone shapes.now) host tag answer.now (length point.waiting) point)
        (map P.point holders.now)) }
{
    let mut after = Vec::new(alloc);
    'holders: for at in 0..holders.len() {
        let most = holders[at].waiting().len();
        takes(
            alloc,
            shapes,
            host,
            tag,
            answer,
            most,
            &holders[at],
            &mut after,
        )?;
    }
    Ok(after)
}

// A unit was retired.
fn after_retired<P: Holder>(
    alloc: Global,
    shapes: &[Shape],
    slot: u8,
    holders: &[P],
) -> Result<Vec<P>, Memory>
    ensures { IfOk result (λ after. map P.point after.items
        ≡ gathered (λ point. retires (alone shapes.now) slot (length point.waiting) point)
        (map P.point holders.now)) }
{
    let mut after = Vec::new(alloc);
    'holders: for at in 0..holders.len() {
        let most = holders[at].waiting().len();
        retires(alloc, shapes, slot, most, &holders[at], &mut after)?;
    }
    Ok(after)
}

/// The states kept after one more entry. `Memory` if out of memory.
#[tactic(auto, unfolding(crate::specs::Steps::after_entry))]
pub fn after<P: Holder>(
    alloc: Global,
    shapes: &[Shape],
    entry: &Entry,
    holders: Vec<P>,
) -> Result<Vec<P>, Memory>
    ensures { IfOk result (λ after. map P.point after.items
        ≡ after_entry (alone shapes.now) entry.now (map P.point holders.items)) }
{
    match entry {
        Entry::Gave {
            host,
            tag,
            poisoned,
            request,
        } => {
            if *poisoned {
                return Ok(holders);
            }
            let waiting = Waiting {
                host: *host,
                tag: *tag,
                request: *request,
            };
            after_gave(alloc, &waiting, &holders)
        }
        Entry::Took { host, tag, answer } => {
            after_took(alloc, shapes, *host, *tag, answer, &holders)
        }
        Entry::Retired { slot } => after_retired(alloc, shapes, *slot, &holders),
        _ => Ok(Vec::new(alloc)),
    }
}
