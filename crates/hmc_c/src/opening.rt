//! A handle is opened and closed.

ghost use Rattle.std.specs.Prelude.{◌≡◌, [], IfOk, IfErr, false, true};
ghost use Rattle.std.specs.declared.option.Option.TheVariants.{None};
ghost use Rattle.hmc_case.specs.Case.{case_of};
ghost use Rattle.hmc_units.specs.Kinds.{unit_of};
ghost use Rattle.hmc_units.specs.Slots.{units_in};
ghost use Rattle.hmc_c.specs.Handles.{HoldsRead, IsHeld, OpenedBy, Reports};
ghost use Rattle.hmc_c.specs.Units.{OpenedWith, are_units, slots_of};

use crate::handle::{Handle, close, put};
use crate::held::Held;
use crate::kept::Kept;
use crate::status::{BAD, MEMORY, NONE, OK};
use crate::units::{UnitIn, bench_of};
use hmc_case::{Case, CaseFault};
use hmc_codes::Memory;
use hmc_session::Laid;
use hmc_units::{Shipped, Slots};
use std::alloc::Global;

// A value in a box. It is generic, so that what becomes of the value where there is no memory for
// the box needs no proof for each of its parts.
fn boxed<T: Drop>(alloc: Global, value: T) -> Result<Box<T>, Memory>
    ensures { IfOk result (λ made. made.value ≡ value) }
{
    match Box::new(alloc, value) {
        Ok(made) => Ok(made),
        Err(_) => Err(Memory),
    }
}

// A session of a case with this bench, with a tape or without, and the steps of the case.
fn held_on(
    alloc: Global,
    case: Case,
    bench: Slots<Shipped>,
    tape: bool,
) -> Result<Box<Held>, Memory>
    ensures { IfOk result (λ held. IsHeld held.value tape case (units_in unit_of bench)) }
{
    case.invariant();
    match Kept::begin(alloc, &case, bench, tape) {
        Ok(kept) => {
            let laid = Laid::new(case.into_schedule());
            boxed(alloc, Held { kept, laid })
        }
        Err(memory) => Err(memory),
    }
}

// The same of the case that these bytes are.
fn opened(
    alloc: Global,
    bytes: &[u8],
    bench: Slots<Shipped>,
    tape: bool,
) -> Result<Box<Held>, CaseFault>
    ensures held { IfOk result (λ held.
        HoldsRead held.value tape (case_of bytes.now) (units_in unit_of bench)) }
    ensures fault { IfErr result (λ fault. Reports fault (case_of bytes.now)) }
{
    match Case::read(alloc, bytes) {
        Ok(case) => match held_on(alloc, case, bench, tape) {
            Ok(held) => Ok(held),
            Err(_) => Err(CaseFault::Memory),
        },
        Err(fault) => Err(fault),
    }
}

// Opens a handle on such a session.
fn open_on(alloc: Global, text: &[u8], bench: Slots<Shipped>, tape: bool, handle: &mut Handle) -> u8
    ensures { OpenedBy result tape (case_of text.now) (units_in unit_of bench)
        handle.old.value handle.new.value }
{
    match opened(alloc, text, bench, tape) {
        Ok(held) => {
            put(handle, held);
            OK
        }
        Err(CaseFault::Memory) => MEMORY,
        Err(CaseFault::Bad { .. }) => BAD,
    }
}

// The same with the logic units that these numbers name.
fn open_with(alloc: Global, text: &[u8], units: &[UnitIn], tape: bool, handle: &mut Handle) -> u8
    ensures { OpenedWith (are_units units.now) result tape (case_of text.now) (slots_of units.now)
        handle.old.value handle.new.value }
{
    match bench_of(alloc, units) {
        Ok(Some(bench)) => open_on(alloc, text, bench, tape, handle),
        Ok(None) => NONE,
        Err(_) => MEMORY,
    }
}

/// Opens a handle on a session of the case that these bytes are, as docs/case.md has it, with no
/// logic units. Its hosts are asked for the requests of its script, and open; the steps of its
/// schedule are laid down, and none is taken. What the handle had is dropped.
///
/// 0: it is open. 1: out of memory. 6: the bytes are not a valid case. With 1 and 6 nothing
/// changes.
#[unsafe(no_mangle)]
pub extern "C" fn hmc_open(alloc: Global, text: &[u8], handle: &mut Handle) -> u8
    ensures { OpenedBy result false (case_of text.now) [] handle.old.value handle.new.value }
{
    open_with(alloc, text, &[], false, handle)
}

/// The same with at most eight logic units: the one at place i is in slot i. Where two have the
/// same cube and code, the one in the lower slot works as long as it is live.
///
/// 8: there are more than eight, or one names no unit; then nothing changes.
#[unsafe(no_mangle)]
pub extern "C" fn hmc_open_with(
    alloc: Global,
    text: &[u8],
    units: &[UnitIn],
    handle: &mut Handle,
) -> u8
    ensures { OpenedWith (are_units units.now) result false (case_of text.now) (slots_of units.now)
        handle.old.value handle.new.value }
{
    open_with(alloc, text, units, false, handle)
}

/// The same with a tape: the requests and the steps are kept as a script and a schedule, which
/// `hmc_tape_script` and `hmc_tape_schedule` write.
#[unsafe(no_mangle)]
pub extern "C" fn hmc_open_taped(
    alloc: Global,
    text: &[u8],
    units: &[UnitIn],
    handle: &mut Handle,
) -> u8
    ensures { OpenedWith (are_units units.now) result true (case_of text.now) (slots_of units.now)
        handle.old.value handle.new.value }
{
    open_with(alloc, text, units, true, handle)
}

/// Closes a handle. A closed one stays closed.
#[unsafe(no_mangle)]
pub extern "C" fn hmc_close(alloc: Global, handle: &mut Handle)
    ensures { handle.new.value ≡ None }
{
    close(alloc, handle);
}
