//! The line of the latest entry.

ghost use Rattle.std.specs.Prelude.{option_map};
ghost use Rattle.hmc_entries.specs.Lines.{line_of};
ghost use Rattle.hmc_session.specs.Showing.{latest};
ghost use Rattle.hmc_c.specs.Lines.{IsWritten, TextShown};
ghost use Rattle.hmc_c.specs.Shows.{ShowsLine};

use crate::handle::Handle;
use crate::held::Held;
use crate::showing::{Text, write};
use crate::status::{NONE, OK};
use hmc_codes::LineText;
use std::alloc::Global;

/// Writes a line to the front of a room for it, if it is long enough.
pub(crate) fn write_line(line: &[u8], out: &mut [u8], written: &mut usize) -> u8
    ensures { IsWritten result written.new line.now out.old out.new }
{
    *written = 0;
    if line.len() > out.len() {
        return NONE;
    }
    out[..line.len()].copy_from_slice(line);
    *written = line.len();
    OK
}

/// Writes a text to the front of a room for it, if it is long enough, and says its length.
pub(crate) fn write_text(due: u8, text: &[u8], out: &mut [u8], count: &mut usize) -> u8
    ensures { TextShown due result count.new text.now out.old out.new }
{
    *count = text.len();
    if text.len() > out.len() {
        return NONE;
    }
    out[..text.len()].copy_from_slice(text);
    due
}

// The line of the latest entry.
#[derive(Drop)]
struct LastLine;

impl Text for LastLine {
    ghost use Rattle.hmc_c.specs.Lines.{LineShown};

    ghost shows = { λ text tape setup past status written old new.
        LineShown status written (option_map line_of (latest past)) old new };

    fn write(&self, held: &Held, out: &mut [u8], written: &mut usize) -> u8 {
        *written = 0;
        match held.kept.session().last() {
            Some(last) => {
                let mut text = LineText::new();
                last.line(&mut text);
                write_line(text.as_str().as_bytes(), out, written)
            }
            None => NONE,
        }
    }
}

/// Writes the line of the latest entry to the front of `out`, with a line feed at its end, and its
/// number of bytes to `written`. A room of 2,048 bytes holds each line.
///
/// 0: it is written. 8: no step was taken, or the room is too small. 9: the handle is closed. With
/// 8 and 9 `written` is 0 and `out` as it was.
#[unsafe(no_mangle)]
pub extern "C" fn hmc_line(
    alloc: Global,
    handle: &mut Handle,
    out: &mut [u8],
    written: &mut usize,
) -> u8
    ensures { ShowsLine (λ setup past. option_map line_of (latest past)) result written.new
        handle.old.value handle.new.value out.old out.new }
{
    write(alloc, handle, &LastLine, out, written)
}
