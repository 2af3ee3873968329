//! The checker of explanations.

ghost use Rattle.std.specs.Prelude.{◌≡◌, ℕ, Bool, Ok, true, length, reverse};
ghost use Rattle.hmc_serial.specs.Machine.{machine_of};
ghost use Rattle.hmc_journal.specs.Delivered.{AllServed};
ghost use Rattle.hmc_journal.specs.Serial.{state_after};
ghost use Rattle.hmc_search.specs.Alone.{alone};
ghost use Rattle.hmc_judge.specs.Explaining.{IsExplanation, IsFirstWrong};

use crate::walk::{Desk, step};
use hmc_codes::{Memory, Shape};
use hmc_entries::Entry;
use hmc_search::{Ready, Waiting};
use hmc_serial::Plain;
use hmc_units::Workbench;
use std::alloc::Global;

/// Whether a journal explains what hosts see of it.
#[derive(Clone, Copy)]
pub enum Explanation {
    /// It does. `served`: each request that isn't poisoned was executed, and each with a tag was
    /// answered.
    Right { served: bool },
    /// The entries before this place do, and those up to it don't.
    Wrong { at: usize },
}

// Whether nothing waits and no answer is ready.
fn are_empty(waiting: &[Waiting], ready: &[Ready]) -> bool
    ensures waiting { result ≡ true → length waiting.now ≡ 0 }
    ensures ready { result ≡ true → length ready.now ≡ 0 }
{
    waiting.is_empty() && ready.is_empty()
}

/// Checks that the executions of a journal explain what hosts see of it, the oldest entry first. A
/// plain machine whose cubes have these shapes, and a bench, perform them. Entries other than
/// requests given, executions, answers taken and retirements are left out. `Memory` if out of
/// memory.
pub fn explains<B: Workbench>(
    alloc: Global,
    shapes: &[Shape],
    plain: &mut Plain,
    bench: &mut B,
    entries: &[Entry],
) -> Result<Explanation, Memory>
    ensures right { (served : Bool) → result ≡ Ok (Explanation.Right served) →
        IsExplanation shapes.now (machine_of plain.old (B.slots bench.old)) (reverse entries.now) }
    ensures machine { (served : Bool) → result ≡ Ok (Explanation.Right served) →
        machine_of plain.new (B.slots bench.new)
        ≡ state_after (machine_of plain.old (B.slots bench.old)) (reverse entries.now) }
    ensures served { result ≡ Ok (Explanation.Right true) →
        AllServed (alone shapes.now) (reverse entries.now) }
    ensures wrong { (at : ℕ) → result ≡ Ok (Explanation.Wrong at) →
        IsFirstWrong shapes.now (machine_of plain.old (B.slots bench.old)) entries.now at }
{
    let mut desk = Desk {
        waiting: Vec::new(alloc),
        ready: Vec::new(alloc),
    };
    'entries: for at in 0..entries.len() {
        let went = step(shapes, plain, bench, &mut desk, &entries[at])?;
        if !went {
            return Ok(Explanation::Wrong { at });
        }
    }
    let served = are_empty(&desk.waiting, &desk.ready);
    Ok(Explanation::Right { served })
}
