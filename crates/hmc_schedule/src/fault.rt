//! What is wrong with a schedule.

ghost use Rattle.std.specs.Prelude.{Some};

use hmc_text::fault::TextFault;
use std::fmt;

/// What is wrong with a line.
#[derive(Clone, Copy)]
pub enum ScheduleKind {
    /// The first word is not that of a step, of rounds or of noise.
    Step,
    /// A word is missing, or words are left.
    Words,
    /// The word is not a number where one is due.
    Number,
    /// The network has no part of this number, or a number of rounds or landings is out of range.
    Range,
    /// The word is not a mask.
    Mask,
    /// More steps than a schedule may have.
    Steps,
}

impl fmt::Display for ScheduleKind {
    ghost use Rattle.hmc_schedule.specs.Kind.{kind_word};

    ghost output = { λ kind. Some (kind_word kind) };

    fn fmt<W: fmt::Write>(&self, f: &mut fmt::Formatter<W>) -> fmt::Result {
        f.write_str(match self {
            ScheduleKind::Step => "step",
            ScheduleKind::Words => "words",
            ScheduleKind::Number => "number",
            ScheduleKind::Range => "range",
            ScheduleKind::Mask => "mask",
            ScheduleKind::Steps => "steps",
        })
    }
}

/// Why a text is not a schedule.
pub type ScheduleFault = TextFault<ScheduleKind>;
