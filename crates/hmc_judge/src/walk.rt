//! The walk over a journal: a plain machine, what waits and what is ready.

ghost use Rattle.std.specs.Prelude.{◌≡◌, IfOk, OnOk, length};
ghost use Rattle.std.specs.Bool.{OnTrue};
ghost use Rattle.hmc_serial.specs.Machine.{apply, machine_of};
ghost use Rattle.hmc_search.specs.Alone.{alone};
ghost use Rattle.hmc_judge.specs.Walk.{gives, left_ready, left_waiting, performed_if, point_of, ready_with, some_if, waiting_with, walk_step};

use crate::next::{place_to_execute, place_to_take};
use hmc_codes::{Answer, Memory, Request, Shape, Unit};
use hmc_entries::Entry;
use hmc_search::{Ready, Waiting, same_answer};
use hmc_serial::Plain;
use hmc_units::Workbench;

/// What a walk keeps beside the machine.
#[derive(Drop)]
pub struct Desk {
    /// The requests that wait, the oldest first.
    pub waiting: Vec<Waiting>,
    /// The answers that no host has taken, the oldest first.
    pub ready: Vec<Ready>,
}

// Whether the machine gives this answer to a request, which it then has performed.
fn performs<B: Workbench>(
    plain: &mut Plain,
    bench: &mut B,
    request: &Request,
    answer: &Answer,
) -> bool
    ensures value { result
        ≡ gives (machine_of plain.old (B.slots bench.old)) request.now answer.now }
    ensures machine { OnTrue result (machine_of plain.new (B.slots bench.new)
        ≡ apply (machine_of plain.old (B.slots bench.old)) request.now) }
{
    if usize::from(request.cube) >= plain.cubes() {
        return false;
    }
    let given = plain.apply(request, bench);
    same_answer(&given, answer)
}

// An answer is ready if its request has a tag.
fn make_ready(
    host: u8,
    tag: Option<u16>,
    answer: &Answer,
    ready: &mut Vec<Ready>,
) -> Result<(), Memory>
    ensures { OnOk result (ready.new.items ≡ ready_with host tag answer.now ready.old.items) }
{
    if let Some(tag) = tag {
        ready.push(Ready {
            host,
            tag: Some(tag),
            answer: *answer,
        })?;
    }
    Ok(())
}

// A request waits, unless it is poisoned; one that is has no tag.
fn give(
    waiting: &mut Vec<Waiting>,
    host: u8,
    tag: Option<u16>,
    poisoned: bool,
    request: &Request,
) -> Result<bool, Memory>
    ensures { IfOk result (λ went. waiting_with host tag poisoned request.now waiting.old.items
        ≡ some_if went waiting.new.items) }
{
    if poisoned {
        return Ok(tag.is_none());
    }
    waiting.push(Waiting {
        host,
        tag,
        request: *request,
    })?;
    Ok(true)
}

// A host takes an answer, if it is next.
fn take(ready: &mut Vec<Ready>, host: u8, tag: u16, answer: &Answer) -> bool
    ensures { left_ready host tag answer.now ready.old.items ≡ some_if result ready.new.items }
{
    match place_to_take(host, tag, answer, ready) {
        None => false,
        Some(at) => {
            ready.remove(at);
            true
        }
    }
}

// A unit executes a request, if it is next and the machine gives its answer.
fn execute<B: Workbench>(
    shapes: &[Shape],
    plain: &mut Plain,
    bench: &mut B,
    desk: &mut Desk,
    unit: Unit,
    next: &Waiting,
    answer: &Answer,
) -> Result<bool, Memory>
    ensures { IfOk result (λ went. performed_if (point_of plain.old (B.slots bench.old)
        desk.old.waiting.items desk.old.ready.items) next.now answer.now
        (left_waiting (alone shapes.now) unit next.now desk.old.waiting.items)
        ≡ some_if went (point_of plain.new (B.slots bench.new)
        desk.new.waiting.items desk.new.ready.items)) }
{
    let Some(at) = place_to_execute(shapes, unit, next, &desk.waiting) else {
        return Ok(false);
    };
    if !performs(plain, bench, &next.request, answer) {
        return Ok(false);
    }
    desk.waiting.remove(at);
    make_ready(next.host, next.tag, answer, &mut desk.ready)?;
    Ok(true)
}

/// Takes one entry: true where the walk goes on, false where it can't.
#[tactic(auto, unfolding(crate::specs::Walk::walk_step))]
pub fn step<B: Workbench>(
    shapes: &[Shape],
    plain: &mut Plain,
    bench: &mut B,
    desk: &mut Desk,
    entry: &Entry,
) -> Result<bool, Memory>
    ensures { IfOk result (λ went. walk_step (alone shapes.now) (point_of plain.old
        (B.slots bench.old) desk.old.waiting.items desk.old.ready.items) entry.now
        ≡ some_if went (point_of plain.new (B.slots bench.new)
        desk.new.waiting.items desk.new.ready.items)) }
{
    match entry {
        Entry::Gave {
            host,
            tag,
            poisoned,
            request,
        } => give(&mut desk.waiting, *host, *tag, *poisoned, request),
        Entry::Executed {
            unit,
            host,
            tag,
            request,
            answer,
        } => {
            let next = Waiting {
                host: *host,
                tag: *tag,
                request: *request,
            };
            execute(shapes, plain, bench, desk, *unit, &next, answer)
        }
        Entry::Took { host, tag, answer } => Ok(take(&mut desk.ready, *host, *tag, answer)),
        Entry::Retired { slot } => {
            bench.retire(*slot);
            Ok(true)
        }
        _ => Ok(true),
    }
}
