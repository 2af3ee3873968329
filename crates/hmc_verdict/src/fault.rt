//! Why there is nothing to judge.

ghost use Rattle.std.specs.Prelude.{◌≡◌, []};
ghost use Rattle.hmc_verdict.specs.Subject.{line_due};

use hmc_case::{CaseKind, Section};
use hmc_codes::{LineText, Memory};
use hmc_log::LogKind;

/// Why there is nothing to judge.
#[derive(Clone, Copy)]
pub enum SubjectFault {
    /// Out of memory.
    Memory,
    /// The first fault of the case.
    Case {
        /// The part of the case in which it is.
        section: Section,
        /// The number of the cube or of the link, the line of the script or of the schedule, or 0.
        line: u32,
        /// What is wrong.
        kind: CaseKind,
    },
    /// The bytes of the log are no UTF-8 text.
    NoText,
    /// The first fault of the log.
    Log {
        /// Its line, from 1.
        line: u32,
        /// What is wrong.
        kind: LogKind,
    },
}

impl From<Memory> for SubjectFault {
    ghost use Rattle.hmc_verdict.specs.declared.fault.SubjectFault.TheVariants as faults;

    ghost from_gives = { λ _ fault. fault ≡ faults.Memory };

    fn from(_: Memory) -> Self {
        SubjectFault::Memory
    }
}

impl SubjectFault {
    /// Writes the line of the fault into an empty text, with a line feed at its end; nothing where
    /// memory ran out. It takes no memory.
    pub fn print(self, into: &mut LineText)
        requires { into.old.bytes ≡ [] }
        ensures { into.new.bytes ≡ line_due self }
    {
        match self {
            SubjectFault::Memory => {}
            SubjectFault::Case {
                section,
                line,
                kind,
            } => hmc_case::bad_line(into, section, line, kind),
            SubjectFault::NoText => hmc_log::no_text_line(into),
            SubjectFault::Log { line, kind } => hmc_log::bad_line(into, line, kind),
        }
    }
}
