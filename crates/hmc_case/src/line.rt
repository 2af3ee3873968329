//! The line by which a fault is reported.

ghost use Rattle.std.specs.Prelude.{◌≡◌, ◌<◌, [], length};
ghost use Rattle.hmc_case.specs.Line.{bad_line};

use crate::fault::{CaseKind, Section};
use hmc_codes::{LineText, append_spaced};

/// Writes the line of a fault into an empty text: `bad`, the section, the line there and the kind,
/// with a line feed at its end. It has 1 to 63 bytes, and takes no memory.
#[tactic(auto, unfolding(crate::specs::Line::bad_line))]
pub fn bad_line(into: &mut LineText, section: Section, line: u32, kind: CaseKind)
    requires empty { into.old.bytes ≡ [] }
    ensures text { into.new.bytes
        ≡ bad_line (record { section = section; line = line; kind = kind }) }
    ensures some { 0 < length into.new.bytes }
    ensures short { length into.new.bytes < 64 }
{
    into.push_str("bad ");
    into.push_str(section.word());
    append_spaced(into, u64::from(line));
    into.push_str(" ");
    into.push_str(kind.word());
    into.push_str("\n");
}
