//! The lines by which faults are reported.

ghost use Rattle.std.specs.Prelude.{◌≡◌, ◌<◌, [], length};
ghost use Rattle.hmc_log.specs.Fault.{bad_line, no_text_line};

use crate::LogKind;
use hmc_codes::{LineText, append_spaced};

/// Writes the line of a fault into an empty text: `bad log`, the line of the log and the kind, with
/// a line feed at its end. It takes no memory.
#[tactic(auto, unfolding(crate::specs::Fault::bad_line))]
pub fn bad_line(into: &mut LineText, line: u32, kind: LogKind)
    requires empty { into.old.bytes ≡ [] }
    ensures text { into.new.bytes ≡ bad_line (line, kind) }
    ensures some { 0 < length into.new.bytes }
{
    into.push_str("bad log");
    append_spaced(into, u64::from(line));
    into.push_str(" ");
    into.push_str(kind.word());
    into.push_str("\n");
}

/// Writes the line for bytes that are no text into an empty text: `bad log 0 text`, with a line
/// feed at its end. It takes no memory.
#[tactic(auto, unfolding(crate::specs::Fault::no_text_line))]
pub fn no_text_line(into: &mut LineText)
    requires empty { into.old.bytes ≡ [] }
    ensures text { into.new.bytes ≡ no_text_line }
    ensures some { 0 < length into.new.bytes }
{
    into.push_str("bad log 0 text\n");
}
