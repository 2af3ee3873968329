//! What is wrong with a case.

ghost use Rattle.std.specs.Prelude.{◌≡◌, ◌≢◌, ◌≤◌, Some, IsTrue, OnOk, length};
ghost use Rattle.hmc_schedule.specs.Kind.{kind_word as schedule_word};
ghost use Rattle.hmc_case.specs.Kind.{section_word, kind_word};
ghost use Rattle.hmc_case.specs.Reading.{Answers, in_section, or_refuse};
ghost use Rattle.hmc_case.specs.declared.fault.CaseFault.TheVariants as faults;

use hmc_codes::Memory;
use hmc_schedule::ScheduleKind;
use hmc_script::ScriptKind;
use std::alloc::AllocError;
use std::fmt;

/// The part of a case in which something is wrong.
#[derive(Clone, Copy)]
pub enum Section {
    /// The bytes as a TOML document.
    Toml,
    /// The keys of the document.
    Top,
    /// A cube.
    Cube,
    /// All cubes and links together.
    Net,
    /// A link.
    Link,
    /// The script.
    Script,
    /// The schedule.
    Schedule,
}

impl Section {
    /// The word by which it is reported: at most 8 letters.
    pub fn word(self) -> &'static str
        ensures word { result.now ≡ section_word self }
        ensures few { length result.now ≤ 8 }
    {
        match self {
            Section::Toml => "toml",
            Section::Top => "top",
            Section::Cube => "cube",
            Section::Net => "net",
            Section::Link => "link",
            Section::Script => "script",
            Section::Schedule => "schedule",
        }
    }
}

impl fmt::Display for Section {
    ghost use Rattle.hmc_case.specs.Kind.{section_word};

    ghost output = { λ section. Some (section_word section) };

    fn fmt<W: fmt::Write>(&self, f: &mut fmt::Formatter<W>) -> fmt::Result {
        f.write_str(self.word())
    }
}

/// What is wrong there.
#[derive(Clone, Copy)]
pub enum CaseKind {
    /// The bytes are not a TOML document.
    Syntax,
    /// A table has a key that it may not have.
    Unknown,
    /// A key is missing.
    Missing,
    /// A value is of another type.
    Kind,
    /// A number, or the length of an array, is out of range.
    Range,
    /// The cubes together have too many bytes.
    Capacity,
    /// A link's end is neither a host nor a port.
    Endpoint,
    /// There is no cube of that number.
    NoCube,
    /// A link joins two hosts, or the hosts aren't numbered from 0 without a gap.
    Hosts,
    /// A link joins two ports of one cube.
    SelfJoined,
    /// Another link ends there.
    Taken,
    /// Some cube can't be reached from another.
    Parted,
    /// The script has this fault.
    Script(ScriptKind),
    /// The schedule has this fault.
    Schedule(ScheduleKind),
}

// The word of a fault of the schedule.
fn schedule_word(kind: ScheduleKind) -> &'static str
    ensures word { result.now ≡ schedule_word kind }
    ensures few { length result.now ≤ 8 }
{
    match kind {
        ScheduleKind::Step => "step",
        ScheduleKind::Words => "words",
        ScheduleKind::Number => "number",
        ScheduleKind::Range => "range",
        ScheduleKind::Mask => "mask",
        ScheduleKind::Steps => "steps",
    }
}

impl CaseKind {
    /// The word by which it is reported: at most 8 letters. A fault of the script or of the
    /// schedule has its own.
    pub fn word(self) -> &'static str
        ensures word { result.now ≡ kind_word self }
        ensures few { length result.now ≤ 8 }
    {
        match self {
            CaseKind::Syntax => "syntax",
            CaseKind::Unknown => "unknown",
            CaseKind::Missing => "missing",
            CaseKind::Kind => "kind",
            CaseKind::Range => "range",
            CaseKind::Capacity => "capacity",
            CaseKind::Endpoint => "endpoint",
            CaseKind::NoCube => "nocube",
            CaseKind::Hosts => "hosts",
            CaseKind::SelfJoined => "self",
            CaseKind::Taken => "taken",
            CaseKind::Parted => "parted",
            CaseKind::Script(kind) => kind.word(),
            CaseKind::Schedule(kind) => schedule_word(kind),
        }
    }
}

impl fmt::Display for CaseKind {
    ghost use Rattle.hmc_case.specs.Kind.{kind_word};

    ghost output = { λ kind. Some (kind_word kind) };

    fn fmt<W: fmt::Write>(&self, f: &mut fmt::Formatter<W>) -> fmt::Result {
        f.write_str(self.word())
    }
}

/// Why bytes are not a case.
#[derive(Clone, Copy)]
pub enum CaseFault {
    /// Out of memory.
    Memory,
    /// The first fault.
    Bad {
        /// The part of the case in which it is.
        section: Section,
        /// The number of the cube or of the link, from 0; the line of the script or of the
        /// schedule, from 1; else 0.
        line: u32,
        /// What is wrong.
        kind: CaseKind,
    },
}

impl From<Memory> for CaseFault {
    ghost from_gives = { λ _ fault. fault ≡ faults.Memory };

    fn from(_: Memory) -> Self {
        CaseFault::Memory
    }
}

impl From<AllocError> for CaseFault {
    ghost from_gives = { λ _ fault. fault ≡ faults.Memory };

    fn from(_: AllocError) -> Self {
        CaseFault::Memory
    }
}

/// What was read, or else the fault of this line of this section.
pub fn in_section<T>(section: Section, line: u32, read: Result<T, CaseKind>) -> Result<T, CaseFault>
    ensures value { Answers (λ x. x) result (in_section section line read) }
    ensures not_memory { result ≢ Err faults.Memory }
{
    match read {
        Ok(x) => Ok(x),
        Err(kind) => Err(CaseFault::Bad {
            section,
            line,
            kind,
        }),
    }
}

/// The fault `kind` where the test doesn't pass.
pub fn refuse_unless(passes: bool, kind: CaseKind) -> Result<(), CaseKind>
    ensures value { result ≡ or_refuse kind passes }
    ensures passes { OnOk result (IsTrue passes) }
{
    if passes { Ok(()) } else { Err(kind) }
}
