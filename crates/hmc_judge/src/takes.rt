//! An answer is taken, or a unit is retired.

ghost use Rattle.std.specs.Prelude.{◌≡◌, ◌++◌, OnOk, map};
ghost use Rattle.hmc_search.specs.Alone.{alone};
ghost use Rattle.hmc_search.specs.Kept.{retires, takes};

use crate::{Holder, nexts};
use hmc_codes::{Answer, Memory, Shape};
use hmc_search::{place_at_hand, same_answer};
use std::alloc::Global;

/// Adds the states in which an answer was taken, after at most so many executions. `Memory` if out
/// of memory.
pub fn takes<P: Holder>(
    alloc: Global,
    shapes: &[Shape],
    host: u8,
    tag: u16,
    answer: &Answer,
    most: usize,
    holder: &P,
    into: &mut Vec<P>,
) -> Result<(), Memory>
    ensures { OnOk result (map P.point into.new.items ≡ map P.point into.old.items
        ++ takes (alone shapes.now) host tag answer.now most (P.point holder.now)) }
{
    if let Some(at) = place_at_hand(host, tag, holder.ready()) {
        if same_answer(&holder.ready()[at].answer, answer) {
            let taken = holder.taken(at)?;
            into.push(taken)?;
        }
        return Ok(());
    }
    if most == 0 {
        return Ok(());
    }
    let holders = nexts(alloc, shapes, holder)?;
    'holders: for at in 0..holders.len() {
        takes(
            alloc,
            shapes,
            host,
            tag,
            answer,
            most - 1,
            &holders[at],
            into,
        )?;
    }
    Ok(())
}

/// Adds the states in which a unit was retired, after at most so many executions. `Memory` if out
/// of memory.
pub fn retires<P: Holder>(
    alloc: Global,
    shapes: &[Shape],
    slot: u8,
    most: usize,
    holder: &P,
    into: &mut Vec<P>,
) -> Result<(), Memory>
    ensures { OnOk result (map P.point into.new.items ≡ map P.point into.old.items
        ++ retires (alone shapes.now) slot most (P.point holder.now)) }
{
    let retired = holder.retired(slot)?;
    into.push(retired)?;
    if most == 0 {
        return Ok(());
    }
    let holders = nexts(alloc, shapes, holder)?;
    'holders: for at in 0..holders.len() {
        retires(alloc, shapes, slot, most - 1, &holders[at], into)?;
    }
    Ok(())
}
