//! What is wrong with a trace.

ghost use Rattle.std.specs.Prelude.{◌≡◌, ◌≤◌, Some, length};
ghost use Rattle.hmc_accesses.specs.Kind.{kind_word};

use hmc_text::fault::TextFault;
use std::fmt;

/// What is wrong with a line.
#[derive(Clone, Copy, PartialEq, Eq)]
pub enum TraceKind {
    /// The word is unknown, or a cube comes after the first load or store.
    Word,
    /// A word is missing, or words are left.
    Words,
    /// The word is not a number.
    Number,
    /// There is no such cube.
    Cube,
    /// The word is not whole pairs of hexadecimal digits.
    Hex,
    /// No byte, or more than 4,096.
    Length,
    /// The number is out of its limits, or the bytes are past the capacity.
    Range,
    /// There are more than eight cubes, or none.
    Cubes,
    /// The bytes of all cubes are too many.
    Capacity,
    /// More requests than a script may have.
    TooMany,
}

impl TraceKind {
    /// The word by which it is reported: at most 8 letters.
    pub fn word(self) -> &'static str
        ensures word { result.now ≡ kind_word self }
        ensures few { length result.now ≤ 8 }
    {
        match self {
            TraceKind::Word => "word",
            TraceKind::Words => "words",
            TraceKind::Number => "number",
            TraceKind::Cube => "cube",
            TraceKind::Hex => "hex",
            TraceKind::Length => "length",
            TraceKind::Range => "range",
            TraceKind::Cubes => "cubes",
            TraceKind::Capacity => "capacity",
            TraceKind::TooMany => "toomany",
        }
    }
}

impl fmt::Display for TraceKind {
    ghost use Rattle.hmc_accesses.specs.Kind.{kind_word};

    ghost output = { λ kind. Some (kind_word kind) };

    fn fmt<W: fmt::Write>(&self, f: &mut fmt::Formatter<W>) -> fmt::Result {
        f.write_str(self.word())
    }
}

/// Why a text is not a trace.
pub type TraceFault = TextFault<TraceKind>;
