//! Steps that are laid down, and taken one after another.

ghost use Rattle.std.specs.Prelude.{◌≡◌, ◌-◌, ◌<◌, List, None, Some};
ghost use Rattle.std.specs.Option.{MatchOption};
ghost use Rattle.hmc_entries.specs.declared.entry.Entry.{Entry};
ghost use Rattle.hmc_journal.specs.Setup.{Setup};
ghost use Rattle.hmc_schedule.specs.Schedule.{schedule_of};
ghost use Rattle.hmc_c.specs.Handles.{HandleKeepsParts, HandleStands, KnowsLaid, KnowsSteps, Stands, shown};
ghost use Rattle.hmc_c.specs.Kept.{KeepsParts, has_tape};
ghost use Rattle.hmc_c.specs.Laying.{BytesLaid, IsLaid, IsNexted, IsRun, LaidBy, NextBy, RunBy, has_bit, stops_of};
ghost use Rattle.hmc_c.specs.Status.{closed};

use crate::handle::Handle;
use crate::held::Held;
use crate::status::{BAD, MEMORY, OK};
use hmc_schedule::ScheduleFault;
use hmc_session::Stops;
use std::alloc::Global;

// Lays down the steps of a schedule in place of those that are left.
fn lay_text(held: &mut Held, alloc: Global, text: &str) -> u8
    ensures laid { LaidBy result (schedule_of (shown held.old).plan text.now)
        held.old.laid held.new.laid }
    ensures kept { held.new.kept ≡ held.old.kept }
    ensures known { KnowsSteps held.old → KnowsSteps held.new }
{
    match held.kept.session().lay(alloc, text) {
        Ok(laid) => {
            held.laid = laid;
            OK
        }
        Err(ScheduleFault::Memory) => MEMORY,
        Err(ScheduleFault::Fault { .. }) => BAD,
    }
}

// The same of bytes, which may be no text.
fn lay_bytes(held: &mut Held, alloc: Global, bytes: &[u8]) -> u8
    ensures laid { BytesLaid result held.old held.new bytes.now }
    ensures known { KnowsSteps held.old → KnowsSteps held.new }
{
    match str::from_utf8(bytes) {
        Ok(text) => lay_text(held, alloc, text),
        Err(_) => BAD,
    }
}

/// Lays down the steps of a schedule (docs/schedule.md) for the parts of the session, in place of
/// those that are left.
///
/// 0: they are laid down. 1: out of memory. 6: the text is no such schedule. 9: the handle is
/// closed. With 1 and 6 nothing changes.
#[unsafe(no_mangle)]
pub extern "C" fn hmc_lay(alloc: Global, handle: &mut Handle, text: &[u8]) -> u8
    ensures laid { MatchOption handle.old.value (result ≡ closed)
        (λ held. IsLaid result (Some held) handle.new.value text.now) }
    ensures stands { (setup : Setup) (past : List Entry) →
        HandleStands handle.old.value setup past → HandleStands handle.new.value setup past }
    ensures known { KnowsLaid handle.old.value → KnowsLaid handle.new.value }
    ensures stays { handle.old.value ≡ None → handle.new.value ≡ None }
{
    with_held!(alloc, handle, |held| lay_bytes(&mut held, alloc, text))
}

// Takes the next of the steps that are laid down.
fn take_next(held: &mut Held) -> u8
    ensures does { (setup : Setup) (past : List Entry) → Stands held.old setup past →
        NextBy result (has_tape held.old.kept) (shown held.old) (Stands held.new) setup past
        held.old.laid held.new.laid }
    ensures parts { KeepsParts held.old.kept held.new.kept }
{
    held.kept.next(&mut held.laid)
}

/// Takes the next of the steps that are laid down. One that is refused is off the list too; one
/// that the tape has no memory for stays.
///
/// 0: it is taken. 7: it is taken, and its landing passed; no step may follow. 1: the tape is out
/// of memory. 8: none is left. 9: the handle is closed. 10: it is a give of a host that has given
/// all of its requests and may be asked for more. 11: no step may be taken any more. With 1 and 8
/// to 11 the session doesn't change.
#[unsafe(no_mangle)]
pub extern "C" fn hmc_next(alloc: Global, handle: &mut Handle) -> u8
    ensures stands { (setup : Setup) (past : List Entry) →
        HandleStands handle.old.value setup past →
        IsNexted result handle.old.value handle.new.value setup past }
    ensures closed { handle.old.value ≡ None → result ≡ closed }
    ensures parts { HandleKeepsParts handle.old.value handle.new.value }
{
    with_held!(alloc, handle, |held| take_next(&mut held))
}

// Whether a number has this power of two.
fn has_bit(number: u32, power: u32) -> bool
    requires { 0 < power }
    ensures { result ≡ has_bit number power }
{
    number / power % 2 == 1
}

// The kinds of entries whose bits are set.
#[tactic(auto, unfolding(crate::specs::Laying::stops_of))]
fn stops_of(number: u32) -> Stops
    ensures { result ≡ stops_of number }
{
    Stops {
        gave: has_bit(number, 2),
        sent: has_bit(number, 4),
        landed: has_bit(number, 8),
        shifted: has_bit(number, 16),
        dropped: has_bit(number, 32),
        spread: has_bit(number, 64),
        executed: has_bit(number, 128),
        lifted: has_bit(number, 256),
        took: has_bit(number, 512),
        discarded: has_bit(number, 1024),
        through: has_bit(number, 2048),
        unlocked: has_bit(number, 4096),
        retired: has_bit(number, 8192),
        passed: has_bit(number, 16384),
        idle: has_bit(number, 32768),
    }
}

// Takes steps up to an entry of one of these kinds, and counts them.
fn run_on(held: &mut Held, most: u32, stops: &Stops, steps: &mut u32) -> u8
    ensures run { (setup : Setup) (past : List Entry) → Stands held.old setup past →
        RunBy result (has_tape held.old.kept) (Stands held.new) (shown held.new) setup past
        held.old.laid held.new.laid stops.now most }
    ensures steps { steps.new ≡ (shown held.new).taken - (shown held.old).taken }
    ensures parts { KeepsParts held.old.kept held.new.kept }
{
    let before = held.kept.session().taken();
    let status = held.kept.run(&mut held.laid, most, stops);
    *steps = held.kept.session().taken().saturating_sub(before);
    status
}

/// Takes steps that are laid down, up to an entry whose kind k has the bit k set in `stops`, and
/// tries at most so many. A step that waits is passed over; one that is refused for another cause
/// is off the list, and ends the run. `steps` is how many were taken.
///
/// 0: the latest entry is of such a kind, or so many were tried. 1: the tape is out of memory for
/// the next step, which stays on the list. 8: no step is left. 9: the handle is closed; then
/// `steps` is 0. 11: a step may not be taken any more.
#[unsafe(no_mangle)]
pub extern "C" fn hmc_run(
    alloc: Global,
    handle: &mut Handle,
    most: u32,
    stops: u32,
    steps: &mut u32,
) -> u8
    ensures stands { (setup : Setup) (past : List Entry) →
        HandleStands handle.old.value setup past →
        IsRun result handle.old.value handle.new.value setup past (stops_of stops) most steps.new }
    ensures closed { handle.old.value ≡ None → (result ≡ closed) × (steps.new ≡ 0) }
    ensures parts { HandleKeepsParts handle.old.value handle.new.value }
{
    *steps = 0;
    with_held!(alloc, handle, |held| {
        run_on(&mut held, most, &stops_of(stops), steps)
    })
}
