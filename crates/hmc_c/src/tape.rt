//! The tape of a session: its requests as a script, and its steps as a schedule.

ghost use Rattle.hmc_script.specs.Text.{script_text};
ghost use Rattle.hmc_step_text.specs.Text.{schedule_text};
ghost use Rattle.hmc_c.specs.Shows.{ShowsTape};

use crate::handle::Handle;
use crate::held::Held;
use crate::lines::write_text;
use crate::showing::{Text, write};
use crate::status::{NONE, OK};
use std::alloc::Global;

/// A text of a tape.
#[derive(Drop)]
pub(crate) enum TapeText {
    /// The requests so far, as a script.
    Script,
    /// The steps so far, as a schedule.
    Schedule,
}

impl Text for TapeText {
    ghost use Rattle.hmc_c.specs.Lines.{TapeShown};
    ghost use Rattle.hmc_c.specs.Tape.{tape_text};

    ghost shows = { λ part tape setup past status count old new.
        TapeShown status count tape (tape_text part setup) old new };

    fn write(&self, held: &Held, out: &mut [u8], count: &mut usize) -> u8 {
        *count = 0;
        let Some(taped) = held.kept.tape() else {
            return NONE;
        };
        match self {
            TapeText::Script => write_text(OK, taped.script().as_bytes(), out, count),
            TapeText::Schedule => write_text(OK, taped.schedule().as_bytes(), out, count),
        }
    }
}

/// Writes the requests that were asked so far, those of the case among them, as a script
/// (docs/script.md) to the front of `out`, and its number of bytes to `length`.
///
/// 0: it is written. 8: the room is too small; or the session has no tape, and then `length` is 0.
/// 9: the handle is closed; then `length` is 0. With 8 and 9 `out` is as it was.
#[unsafe(no_mangle)]
pub extern "C" fn hmc_tape_script(
    alloc: Global,
    handle: &mut Handle,
    out: &mut [u8],
    length: &mut usize,
) -> u8
    ensures { ShowsTape (λ setup. script_text setup.script) result length.new
        handle.old.value handle.new.value out.old out.new }
{
    write(alloc, handle, &TapeText::Script, out, length)
}

/// Writes the steps that were taken so far as a schedule (docs/schedule.md) to the front of `out`,
/// and its number of bytes to `length`.
///
/// 0: it is written. 8: the room is too small; or the session has no tape, and then `length` is 0.
/// 9: the handle is closed; then `length` is 0. With 8 and 9 `out` is as it was.
#[unsafe(no_mangle)]
pub extern "C" fn hmc_tape_schedule(
    alloc: Global,
    handle: &mut Handle,
    out: &mut [u8],
    length: &mut usize,
) -> u8
    ensures { ShowsTape (λ setup. schedule_text setup.schedule) result length.new
        handle.old.value handle.new.value out.old out.new }
{
    write(alloc, handle, &TapeText::Schedule, out, length)
}
