//! Steps by numbers, and the end of requests.

ghost use Rattle.std.specs.Prelude.{◌≡◌, List, None, option_map};
ghost use Rattle.std.specs.Option.{MatchOption};
ghost use Rattle.hmc_entries.specs.declared.entry.Entry.{Entry};
ghost use Rattle.hmc_journal.specs.Setup.{Setup};
ghost use Rattle.hmc_session.specs.Numbers.{step_named};
ghost use Rattle.hmc_c.specs.Handles.{HandleKeepsParts, HandleStands, Stands, laid_in, shown};
ghost use Rattle.hmc_c.specs.Steps.{IsStepped, Stepped, after_finish, finish_status};
ghost use Rattle.hmc_c.specs.Kept.{KeepsParts};
ghost use Rattle.hmc_c.specs.Status.{closed};

use crate::faults::host_count;
use crate::handle::Handle;
use crate::held::Held;
use crate::status::{NO_HOST, NONE, OK};
use hmc_codes::Flit;
use hmc_session::step_named;
use std::alloc::Global;

// Takes the step of these numbers, if it is one that is taken.
fn step_by(held: &mut Held, kind: u8, a: u8, b: u8, c: u8, mask: &Flit) -> u8
    ensures stands { (setup : Setup) (past : List Entry) → Stands held.old setup past →
        Stepped result held.old held.new setup past (step_named kind a b c mask.now) }
    ensures laid { held.new.laid ≡ held.old.laid }
    ensures parts { KeepsParts held.old.kept held.new.kept }
{
    let Some(step) = step_named(kind, a, b, c, mask) else {
        return NONE;
    };
    held.kept.step(&step)
}

/// Takes the step that these numbers name: its kind, the numbers of its words in order, and the
/// mask of a landing. The kinds are 0 give, 1 send, 2 land, 3 shift, 4 spread, 5 bank, 6 registers,
/// 7 lift, 8 take, 9 through, 10 unlock and 11 retire. A lift of the answers of the registers has
/// 255 in place of a vault.
///
/// 0: it is taken. 7: it is taken, and its landing passed; no step may follow. 1: the tape is out
/// of memory. 8: it names no part of the network. 9: the handle is closed. 10: it is a give of a
/// host that has given all of its requests and may be asked for more. 11: no step may be taken any
/// more. With 1 and 8 to 11 nothing changes.
#[unsafe(no_mangle)]
pub extern "C" fn hmc_step(
    alloc: Global,
    handle: &mut Handle,
    kind: u8,
    a: u8,
    b: u8,
    c: u8,
    mask: &Flit,
) -> u8
    ensures stands { (setup : Setup) (past : List Entry) →
        HandleStands handle.old.value setup past →
        IsStepped result handle.old.value handle.new.value setup past
        (step_named kind a b c mask.now) }
    ensures laid { laid_in handle.new.value ≡ laid_in handle.old.value }
    ensures closed { handle.old.value ≡ None → result ≡ closed }
    ensures parts { HandleKeepsParts handle.old.value handle.new.value }
{
    with_held!(alloc, handle, |held| {
        step_by(&mut held, kind, a, b, c, mask)
    })
}

// Asks a host for nothing more, if it is there.
fn finish(held: &mut Held, host: u8) -> u8
    ensures status { result ≡ finish_status (shown held.old).plan.hosts host }
    ensures left { held.new ≡ after_finish host held.old }
    ensures stands { (setup : Setup) (past : List Entry) → Stands held.old setup past →
        Stands held.new setup past }
{
    if host >= host_count(held.kept.session().plan()) {
        return NO_HOST;
    }
    held.kept.finish(host);
    OK
}

/// Asks a host for nothing more, from now on: where it has given all of its requests, its gives are
/// steps that do nothing.
///
/// 0: so it is. 9: the handle is closed. 12: there is no such host; nothing changes.
#[unsafe(no_mangle)]
pub extern "C" fn hmc_finish(alloc: Global, handle: &mut Handle, host: u8) -> u8
    ensures status { MatchOption handle.old.value (result ≡ closed)
        (λ held. result ≡ finish_status (shown held).plan.hosts host) }
    ensures left { handle.new.value ≡ option_map (after_finish host) handle.old.value }
    ensures stands { (setup : Setup) (past : List Entry) →
        HandleStands handle.old.value setup past → HandleStands handle.new.value setup past }
{
    with_held!(alloc, handle, |held| finish(&mut held, host))
}
