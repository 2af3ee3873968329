//! The first fault of a text.

ghost use Rattle.std.specs.Prelude.{◌≡◌, ◌≤◌, Ok, length};
ghost use Rattle.hmc_codes.specs.Bytes.{padded_bytes};
ghost use Rattle.hmc_codes.specs.Limits.{most_cubes, most_hosts};
ghost use Rattle.hmc_schedule.specs.Schedule.{schedule_of};
ghost use Rattle.hmc_case.specs.Case.{case_of};
ghost use Rattle.hmc_session.specs.Asking.{item_in, item_read};
ghost use Rattle.hmc_c.specs.Faults.{BytesFault, FaultShown, case_fault, fault_with, request_fault, section_number, section_of, stated_fault, steps_fault};
ghost use Rattle.hmc_c.specs.Handles.{shown};
ghost use Rattle.hmc_c.specs.Shows.{ShowsFault};

use crate::handle::Handle;
use crate::held::Held;
use crate::status::{MEMORY, NONE, OK};
use hmc_case::{Case, CaseFault, CaseKind, Section};
use hmc_schedule::{Plan, Schedule, ScheduleFault};
use hmc_script::{Script, ScriptFault};
use std::alloc::Global;

/// The first fault of a text, as C sees it.
#[repr(C)]
#[derive(Drop)]
pub struct FaultOut {
    /// The number of a cube or of a link, from 0; the line of a script or of a schedule, from 1;
    /// else 0.
    pub line: u32,
    /// The part of a case: 0 toml, 1 top, 2 cube, 3 net, 4 link, 5 script, 6 schedule.
    pub section: u8,
    /// What is wrong there: at most 8 letters, and zeros after them.
    pub word: [u8; 16],
}

/// What a text is to state for a session.
#[derive(Clone, Copy)]
pub enum Stated {
    /// One request, in the words of a script.
    Request,
    /// Steps, in those of a schedule.
    Steps,
}

// The section of a text that is to state this.
fn section_of(stated: Stated) -> Section
    ensures { result ≡ section_of stated }
{
    match stated {
        Stated::Request => Section::Script,
        Stated::Steps => Section::Schedule,
    }
}

// The number of a section.
fn section_number(section: Section) -> u8
    ensures { result ≡ section_number section }
{
    match section {
        Section::Toml => 0,
        Section::Top => 1,
        Section::Cube => 2,
        Section::Net => 3,
        Section::Link => 4,
        Section::Script => 5,
        Section::Schedule => 6,
    }
}

// A word, and zeros after it.
fn padded(word: &str) -> [u8; 16]
    requires { length word.now ≤ 8 }
    ensures { result ≡ padded_bytes 16 word.now }
{
    let mut bytes = [0; 16];
    bytes[..word.len()].copy_from_slice(word.as_bytes());
    bytes
}

// A fault with this word.
fn fault_with(section: Section, line: u32, word: &str) -> FaultOut
    requires { length word.now ≤ 8 }
    ensures { result ≡ fault_with section line word.now }
{
    let word = padded(word);
    FaultOut {
        line,
        section: section_number(section),
        word,
    }
}

/// Shows the first fault of a text that is not a valid case.
///
/// 0: it is shown. 1: out of memory. 8: the text is a case. With 1 and 8 nothing is written.
#[unsafe(no_mangle)]
pub extern "C" fn hmc_fault(alloc: Global, text: &[u8], out: &mut FaultOut) -> u8
    ensures { FaultShown result (case_fault (case_of text.now)) out.old out.new }
{
    match Case::read(alloc, text) {
        Ok(_) => NONE,
        Err(CaseFault::Memory) => MEMORY,
        Err(
            CaseFault::Bad {
                section,
                line,
                kind,
            },
        ) => {
            *out = fault_with(section, line, kind.word());
            OK
        }
    }
}

/// The number of hosts of a plan.
pub(crate) fn host_count(plan: &Plan) -> u8
    ensures count { result ≡ plan.now.hosts }
    ensures few { result ≤ most_hosts }
{
    plan.hosts
}

// The number of cubes of a plan.
fn cube_count(plan: &Plan) -> u8
    ensures count { result ≡ length plan.now.cubes }
    ensures few { result ≤ most_cubes }
{
    plan.cubes.len() as u8
}

// Shows the fault of a script that has not one request.
fn show_count(script: &Script, out: &mut FaultOut) -> u8
    ensures { FaultShown result (request_fault (item_read (Ok script.now))) out.old out.new }
{
    if script.len() == 1 {
        return NONE;
    }
    *out = fault_with(Section::Script, 0, "one");
    OK
}

// Shows the fault of a text that states no request for these parts, or more than one.
fn show_request(plan: &Plan, alloc: Global, text: &str, out: &mut FaultOut) -> u8
    ensures { FaultShown result (request_fault (item_in plan.now text.now)) out.old out.new }
{
    match Script::parse(alloc, text, host_count(plan), cube_count(plan)) {
        Ok(script) => show_count(&script, out),
        Err(ScriptFault::Memory) => MEMORY,
        Err(ScriptFault::Fault { line, kind }) => {
            *out = fault_with(Section::Script, line, CaseKind::Script(kind).word());
            OK
        }
    }
}

// Shows the fault of a text that is no schedule for these parts.
fn show_steps(plan: &Plan, alloc: Global, text: &str, out: &mut FaultOut) -> u8
    ensures { FaultShown result (steps_fault (schedule_of plan.now text.now)) out.old out.new }
{
    match Schedule::parse(alloc, text, plan) {
        Ok(_) => NONE,
        Err(ScheduleFault::Memory) => MEMORY,
        Err(ScheduleFault::Fault { line, kind }) => {
            *out = fault_with(Section::Schedule, line, CaseKind::Schedule(kind).word());
            OK
        }
    }
}

// Shows the fault of a text that is to state this for these parts.
fn show_stated(stated: Stated, plan: &Plan, alloc: Global, text: &str, out: &mut FaultOut) -> u8
    ensures { FaultShown result (stated_fault stated plan.now text.now) out.old out.new }
{
    match stated {
        Stated::Request => show_request(plan, alloc, text, out),
        Stated::Steps => show_steps(plan, alloc, text, out),
    }
}

// The same of bytes, which may be no text.
fn show_bytes(stated: Stated, held: &Held, alloc: Global, bytes: &[u8], out: &mut FaultOut) -> u8
    ensures { BytesFault result (section_of stated)
        (stated_fault stated (shown held.now).plan bytes.now) bytes.now out.old out.new }
{
    match str::from_utf8(bytes) {
        Ok(text) => show_stated(stated, held.kept.session().plan(), alloc, text, out),
        Err(_) => {
            *out = fault_with(section_of(stated), 0, "utf8");
            OK
        }
    }
}

/// Shows the first fault of a text that states no request for the hosts and cubes of the session,
/// or more than one: of section script. Where there is not one request its line is 0 and its word
/// `one`; where the bytes are no text, 0 and `utf8`.
///
/// 0: it is shown. 1: out of memory. 8: the text states one request. 9: the handle is closed. With
/// 1, 8 and 9 nothing is written.
#[unsafe(no_mangle)]
pub extern "C" fn hmc_ask_fault(
    alloc: Global,
    handle: &mut Handle,
    text: &[u8],
    out: &mut FaultOut,
) -> u8
    ensures { ShowsFault Stated.Request result handle.old.value handle.new.value text.now
        out.old out.new }
{
    with_held!(alloc, handle, |held| {
        show_bytes(Stated::Request, &held, alloc, text, out)
    })
}

/// Shows the first fault of a text that is no schedule for the parts of the session: of section
/// schedule. Where the bytes are no text its line is 0 and its word `utf8`.
///
/// 0: it is shown. 1: out of memory. 8: the text is a schedule. 9: the handle is closed. With 1, 8
/// and 9 nothing is written.
#[unsafe(no_mangle)]
pub extern "C" fn hmc_lay_fault(
    alloc: Global,
    handle: &mut Handle,
    text: &[u8],
    out: &mut FaultOut,
) -> u8
    ensures { ShowsFault Stated.Steps result handle.old.value handle.new.value text.now
        out.old out.new }
{
    with_held!(alloc, handle, |held| {
        show_bytes(Stated::Steps, &held, alloc, text, out)
    })
}
