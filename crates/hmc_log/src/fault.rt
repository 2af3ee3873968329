//! What is wrong with a log.

ghost use Rattle.std.specs.Prelude.{◌≡◌, ◌≤◌, Some, length};
ghost use Rattle.hmc_log.specs.Kind.{kind_word};

use hmc_text::fault::TextFault;
use std::fmt;

/// What is wrong with a line.
#[derive(Clone, Copy, PartialEq, Eq)]
pub enum LogKind {
    /// The first word is not that of a line of a log, or there is none.
    Word,
    /// Words are missing or left over.
    Words,
    /// The word is not the number of a host of the case.
    Host,
    /// The word is not a tag, or there is none where one is due, or one where none is due; or it is
    /// out while it is given, or it isn't out while an answer has it.
    Tag,
    /// The words are not a request to a cube of the case.
    Request,
    /// The words are not an answer, or it can't be one to the request under its tag.
    Answer,
    /// The word is not the number of a slot, or the slot's logic unit was retired before.
    Slot,
    /// The words are not a block of a cube of the case, or it is out of order.
    Memory,
    /// The words are not a register of a cube of the case that can be written, or it is out of
    /// order.
    Register,
    /// The end isn't whole, a line comes after it, or an entry after its first line.
    End,
    /// More requests of a host than a script may have.
    TooMany,
}

impl LogKind {
    /// The word by which it is reported: at most 8 letters.
    pub fn word(self) -> &'static str
        ensures word { result.now ≡ kind_word self }
        ensures few { length result.now ≤ 8 }
    {
        match self {
            LogKind::Word => "word",
            LogKind::Words => "words",
            LogKind::Host => "host",
            LogKind::Tag => "tag",
            LogKind::Request => "request",
            LogKind::Answer => "answer",
            LogKind::Slot => "slot",
            LogKind::Memory => "memory",
            LogKind::Register => "register",
            LogKind::End => "end",
            LogKind::TooMany => "toomany",
        }
    }
}

impl fmt::Display for LogKind {
    ghost use Rattle.hmc_log.specs.Kind.{kind_word};

    ghost output = { λ kind. Some (kind_word kind) };

    fn fmt<W: fmt::Write>(&self, f: &mut fmt::Formatter<W>) -> fmt::Result {
        f.write_str(self.word())
    }
}

/// Why a text is not a log.
pub type LogFault = TextFault<LogKind>;
