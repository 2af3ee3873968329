//! Writing lines, each by one write, and handing them on.

ghost use Rattle.std.specs.Prelude.{◌≡◌, ◌<◌, ◌≤◌, ℕ, List, ◌∷◌, [], length};
ghost use Rattle.hmc_outside.specs.Lines.{WritesLines};
ghost use Rattle.hmc_outside.specs.Views.{SinkView};
ghost use Rattle.hmc_replay.specs.Output.{number_line, Writes, Delivers};

use hmc_codes::{LineText, append_spaced};
use hmc_outside::{Failed, Sink};

/// Makes the line of a word, of at most 16 bytes, and a number.
#[tactic(auto, unfolding(crate::specs::Output::number_line))]
pub fn number_line(into: &mut LineText, word: &str, number: u64)
    requires empty { into.old.bytes ≡ [] }
    requires short { length word.now ≤ 16 }
    ensures text { into.new.bytes ≡ number_line word.now number }
    ensures some { 0 < length into.new.bytes }
{
    into.push_str(word);
    append_spaced(into, number);
    into.push_str("\n");
}

/// Writes a line, which has a byte at least.
pub fn write_line<O: Sink>(sink: &mut O, line: &str) -> Result<(), Failed>
    requires { 0 < length line.now }
    ensures { Writes result (O.shows sink.old) (O.shows sink.new) (line.now ∷ []) }
{
    sink.write(line.as_bytes())
}

/// Hands on the lines that were written.
pub fn finish<O: Sink>(sink: &mut O) -> Result<(), Failed>
    ensures { (before : SinkView) → (lines : List (List ℕ)) →
        WritesLines before (O.shows sink.old) lines →
        Delivers result before (O.shows sink.new) lines }
{
    sink.finish()
}
