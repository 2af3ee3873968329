//! What is wrong with a script.

ghost use Rattle.std.specs.Prelude.{◌≡◌, ◌≤◌, Some, length};
ghost use Rattle.hmc_script.specs.Kind.{kind_word};

use hmc_text::fault::TextFault;
use std::fmt;

/// What is wrong with a line.
#[derive(Clone, Copy, PartialEq, Eq)]
pub enum ScriptKind {
    /// The word is not the number of a host of the case.
    Host,
    /// A word is missing, or words are left.
    Words,
    /// The word is not that of a request, or it is `fence` after `poison`.
    Command,
    /// The word is not the number of a cube of the case.
    Cube,
    /// The word is not a number below 2^34.
    Address,
    /// The word is not the payload of the command, or of an `mdwr` not a value below 2^32.
    Payload,
    /// More requests than a script may have.
    TooMany,
}

impl ScriptKind {
    /// The word by which it is reported: at most 8 letters.
    pub fn word(self) -> &'static str
        ensures word { result.now ≡ kind_word self }
        ensures few { length result.now ≤ 8 }
    {
        match self {
            ScriptKind::Host => "host",
            ScriptKind::Words => "words",
            ScriptKind::Command => "command",
            ScriptKind::Cube => "cube",
            ScriptKind::Address => "address",
            ScriptKind::Payload => "payload",
            ScriptKind::TooMany => "toomany",
        }
    }
}

impl fmt::Display for ScriptKind {
    ghost use Rattle.hmc_script.specs.Kind.{kind_word};

    ghost output = { λ kind. Some (kind_word kind) };

    fn fmt<W: fmt::Write>(&self, f: &mut fmt::Formatter<W>) -> fmt::Result {
        f.write_str(self.word())
    }
}

/// Why a text is not a script.
pub type ScriptFault = TextFault<ScriptKind>;
