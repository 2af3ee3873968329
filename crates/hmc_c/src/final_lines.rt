//! The final lines of a report of the steps so far.

ghost use Rattle.std.specs.Prelude.{◌≡◌, option_map, slice_get};
ghost use Rattle.hmc_journal.specs.Final.{final_lines_of};
ghost use Rattle.hmc_report.specs.Final.{final_lines};
ghost use Rattle.hmc_c.specs.Shows.{ShowsLeftLine};
ghost use Rattle.hmc_c.specs.Values.{values_in};

use crate::handle::Handle;
use crate::held::Held;
use crate::lines::write_line;
use crate::showing::{Text, write};
use crate::status::{NONE, OVER};
use hmc_codes::LineText;
use hmc_report::{Lines, Part};
use std::alloc::Global;

// The final line of this number, from 0, if there are so many.
fn final_line(held: &Held, number: u32) -> Option<LineText>
    ensures { option_map (λ line. line.bytes) result
        ≡ slice_get (final_lines (values_in held.now)) number }
{
    let mut lines = Lines::new(held.kept.session().network(), Part::Memory);
    'skipped: for at in 0..number {
        let Some(_) = lines.next() else {
            return None;
        };
    }
    lines.next()
}

// A final line, by its number.
#[derive(Drop)]
struct FinalLine {
    number: u32,
}

impl Text for FinalLine {
    ghost use Rattle.hmc_journal.specs.Lawful.{has_passed};
    ghost use Rattle.hmc_c.specs.Values.{LeftLineShown};

    ghost shows = { λ text tape setup past status written old new.
        LeftLineShown status written (has_passed past)
        (slice_get (final_lines_of setup past) text.number) old new };

    fn write(&self, held: &Held, out: &mut [u8], written: &mut usize) -> u8 {
        *written = 0;
        if held.kept.session().has_passed() {
            return OVER;
        }
        held.kept.session().network().shows_journal();
        match final_line(held, self.number) {
            Some(line) => write_line(line.as_str().as_bytes(), out, written),
            None => NONE,
        }
    }
}

/// Writes the final line of this number, from 0, of a report of the steps so far to the front of
/// `out`, with a line feed at its end, and its number of bytes to `written`. A room of 2,048 bytes
/// holds each line. It takes as long as all final lines up to it.
///
/// 0: it is written. 8: there are not so many, or the room is too small. 9: the handle is closed.
/// 11: a landing passed. With 8 to 11 `written` is 0 and `out` as it was.
#[unsafe(no_mangle)]
pub extern "C" fn hmc_final_line(
    alloc: Global,
    handle: &mut Handle,
    number: u32,
    out: &mut [u8],
    written: &mut usize,
) -> u8
    ensures { ShowsLeftLine (λ setup past. slice_get (final_lines_of setup past) number) result
        written.new handle.old.value handle.new.value out.old out.new }
{
    write(alloc, handle, &FinalLine { number }, out, written)
}
