//! The latest entry, as C sees it.

ghost use Rattle.std.specs.Prelude.{◌≡◌, List, [], ◌∷◌, None};
ghost use Rattle.hmc_entries.specs.declared.entry.Entry.{Entry};
ghost use Rattle.hmc_journal.specs.Setup.{Setup};
ghost use Rattle.hmc_c.specs.Entries.{blank, cause_number, goal_into, lift_number, outcome_number, shown_entry, step_into, unit_into, what_number, with_answer, with_request, with_tag};
ghost use Rattle.hmc_session.specs.Session.{StandsIn};
ghost use Rattle.hmc_c.specs.Handles.{HandleStands, shown};
ghost use Rattle.hmc_c.specs.Status.{closed, none, ok};

use crate::handle::Handle;
use crate::held::Held;
use crate::status::{NONE, OK};
use hmc_codes::{Answer, Flit, Lift, Request, Unit};
use hmc_entries::{Cause, Entry, Goal};
use hmc_packet::{Bad, Kind, Outcome, What};
use hmc_schedule::Step;
use std::alloc::Global;

/// An entry as C sees it. What an entry of its kind hasn't is 0, and a tag is 65,535 where there is
/// none.
#[repr(C)]
#[derive(Drop)]
pub struct EntryOut {
    /// The address of a request, or the number of its register.
    pub address: u64,
    /// The value of a register, or the number of an error.
    pub value: u32,
    /// The bytes of `payload` that count.
    pub length: u32,
    /// The bytes of `returned` that count.
    pub returned_length: u32,
    /// The tag.
    pub tag: u16,
    /// The kind, 1 to 15.
    pub kind: u8,
    /// The numbers of the entry's parts, in the order of its line.
    pub a: u8,
    pub b: u8,
    pub c: u8,
    /// The host of a request that a unit executed.
    pub host: u8,
    /// The code of a request's command.
    pub command: u8,
    /// The cube of a request.
    pub cube: u8,
    /// What an answer is, 0 to 5.
    pub answer: u8,
    /// Why a step did nothing, 1 to 8.
    pub cause: u8,
    /// The kind of the step that did nothing.
    pub step: u8,
    /// What a flit was sent as, 1 to 8.
    pub what: u8,
    /// What a landing was, 1 to 13.
    pub outcome: u8,
    /// The flag of an answer; of a shift, whether the packet went to a port.
    pub flag: bool,
    /// Whether a request is poisoned.
    pub poisoned: bool,
    /// The flit of a send or a landing; the mask of an idle landing.
    pub flit: Flit,
    /// The payload of a request.
    pub payload: [u8; 256],
    /// The bytes of an answer.
    pub returned: [u8; 256],
}

// The number of what a flit was sent as.
fn what_number(what: What) -> u8
    ensures { result ≡ what_number what }
{
    match what {
        What::Train => 1,
        What::Clear => 2,
        What::Start => 3,
        What::Null => 4,
        What::Pret => 5,
        What::Tret => 6,
        What::New => 7,
        What::Again => 8,
    }
}

// The number of what a landing was.
fn outcome_number(outcome: Outcome) -> u8
    ensures { result ≡ outcome_number outcome }
{
    match outcome {
        Outcome::Quiet => 1,
        Outcome::Trained => 2,
        Outcome::Gathered => 3,
        Outcome::Accepted => 4,
        Outcome::Poisoned => 5,
        Outcome::Repeat => 6,
        Outcome::AbortedBad(Bad::Length) => 7,
        Outcome::AbortedBad(Bad::Command) => 8,
        Outcome::AbortedBad(Bad::Reserved) => 9,
        Outcome::AbortedBad(Bad::Crc) => 10,
        Outcome::AbortedOrder => 11,
        Outcome::Ran(Kind::Start) => 12,
        Outcome::Ran(Kind::Clear) => 13,
    }
}

// The number of why a step did nothing.
fn cause_number(cause: Cause) -> u8
    ensures { result ≡ cause_number cause }
{
    match cause {
        Cause::Ended => 1,
        Cause::Fence => 2,
        Cause::Tags => 3,
        Cause::Empty => 4,
        Cause::Full => 5,
        Cause::Starved => 6,
        Cause::NoPacket => 7,
        Cause::Busy => 8,
    }
}

// A vault; 255 are the registers.
fn lift_number(from: Lift) -> u8
    ensures { result ≡ lift_number from }
{
    match from {
        Lift::Vault(vault) => vault,
        Lift::Registers => 255,
    }
}

// An entry of a kind with these numbers, and nothing else.
#[tactic(auto, unfolding(crate::specs::Entries::blank, hmc_codes::specs::Flit::zero_flit))]
fn blank(kind: u8, a: u8, b: u8, c: u8) -> EntryOut
    ensures { result ≡ blank kind a b c }
{
    EntryOut {
        address: 0,
        value: 0,
        length: 0,
        returned_length: 0,
        tag: 65535,
        kind,
        a,
        b,
        c,
        host: 0,
        command: 0,
        cube: 0,
        answer: 0,
        cause: 0,
        step: 0,
        what: 0,
        outcome: 0,
        flag: false,
        poisoned: false,
        flit: [0; 16],
        payload: [0; 256],
        returned: [0; 256],
    }
}

// Adds a tag, if there is one.
fn add_tag(out: &mut EntryOut, tag: Option<u16>)
    ensures { out.new ≡ with_tag tag out.old }
{
    if let Some(tag) = tag {
        out.tag = tag;
    }
}

// Sets the flit.
fn set_flit(out: &mut EntryOut, flit: &Flit)
    ensures { out.new ≡ record out.old { flit = flit.now } }
{
    let flit = *flit;
    out.flit = flit;
}

// Adds a request.
fn add_request(out: &mut EntryOut, request: &Request)
    ensures { out.new ≡ with_request request.now out.old }
{
    out.address = request.address;
    out.length = request.payload.as_slice().len() as u32;
    out.command = request.command.code();
    out.cube = request.cube;
    out.payload = *request.payload.padded();
}

// Adds an answer.
fn add_answer(out: &mut EntryOut, answer: &Answer)
    ensures { out.new ≡ with_answer answer.now out.old }
{
    match answer {
        Answer::Silent => {}
        Answer::Done { flag } => {
            out.answer = 1;
            out.flag = *flag;
        }
        Answer::Read { flag, payload } => {
            out.answer = 2;
            out.flag = *flag;
            out.returned_length = payload.as_slice().len() as u32;
            out.returned = *payload.padded();
        }
        Answer::Register { value } => {
            out.answer = 3;
            out.value = *value;
        }
        Answer::Stored => out.answer = 4,
        Answer::Refused { errstat } => {
            out.answer = 5;
            out.value = u32::from(*errstat);
        }
    }
}

// Where a packet went: a vault, 255 the registers, or with the flag a port.
fn goal_into(cube: u8, port: u8, goal: Goal) -> EntryOut
    ensures { result ≡ goal_into cube port goal }
{
    match goal {
        Goal::Vault(vault) => blank(4, cube, port, vault),
        Goal::Registers => blank(4, cube, port, 255),
        Goal::Port(through) => {
            let mut out = blank(4, cube, port, through);
            out.flag = true;
            out
        }
    }
}

// What executed: a bank, or the registers of a cube, which have 255 in place of a vault.
fn unit_into(unit: Unit) -> EntryOut
    ensures { result ≡ unit_into unit }
{
    match unit {
        Unit::Bank { cube, vault, bank } => blank(7, cube, vault, bank),
        Unit::Registers { cube } => blank(7, cube, 255, 0),
    }
}

// A step that did nothing, with its kind and the numbers of its words.
fn step_with(step: u8, a: u8, b: u8, c: u8) -> EntryOut
    ensures { result ≡ record (blank 15 a b c) { step = step } }
{
    let mut out = blank(15, a, b, c);
    out.step = step;
    out
}

// An idle step: its kind, the numbers of its words, and the mask of a landing.
fn step_into(step: &Step) -> EntryOut
    ensures { result ≡ step_into step.now }
{
    match step {
        Step::Give(host) => blank(15, *host, 0, 0),
        Step::Send(direction) => step_with(1, *direction, 0, 0),
        Step::Land(direction, mask) => {
            let mut out = step_with(2, *direction, 0, 0);
            set_flit(&mut out, mask);
            out
        }
        Step::Shift(cube, port) => step_with(3, *cube, *port, 0),
        Step::Spread(cube, vault) => step_with(4, *cube, *vault, 0),
        Step::Bank(cube, vault, bank) => step_with(5, *cube, *vault, *bank),
        Step::Registers(cube) => step_with(6, *cube, 0, 0),
        Step::Lift(cube, from) => step_with(7, *cube, lift_number(*from), 0),
        Step::Take(host) => step_with(8, *host, 0, 0),
        Step::Through(cube, port) => step_with(9, *cube, *port, 0),
        Step::Unlock(direction) => step_with(10, *direction, 0, 0),
        Step::Retire(slot) => step_with(11, *slot, 0, 0),
    }
}

// An execution, with its request and its answer.
fn executed(unit: Unit, host: u8, tag: Option<u16>, request: &Request, answer: &Answer) -> EntryOut
    ensures { result ≡ with_answer answer.now (with_request request.now
        (with_tag tag (record (unit_into unit) { host = host }))) }
{
    let mut out = unit_into(unit);
    out.host = host;
    add_tag(&mut out, tag);
    add_request(&mut out, request);
    add_answer(&mut out, answer);
    out
}

// Shows an entry.
#[tactic(auto, unfolding(crate::specs::Entries::shown_entry))]
fn shown_entry(entry: &Entry) -> EntryOut
    ensures { result ≡ shown_entry entry.now }
{
    match entry {
        Entry::Gave {
            host,
            tag,
            poisoned,
            request,
        } => {
            let mut out = blank(1, *host, 0, 0);
            out.poisoned = *poisoned;
            add_tag(&mut out, *tag);
            add_request(&mut out, request);
            out
        }
        Entry::Sent {
            direction,
            what,
            flit,
        } => {
            let mut out = blank(2, *direction, 0, 0);
            out.what = what_number(*what);
            set_flit(&mut out, flit);
            out
        }
        Entry::Landed {
            direction,
            flit,
            outcome,
        } => {
            let mut out = blank(3, *direction, 0, 0);
            out.outcome = outcome_number(*outcome);
            set_flit(&mut out, flit);
            out
        }
        Entry::Shifted { cube, port, goal } => goal_into(*cube, *port, *goal),
        Entry::Dropped { cube, port } => blank(5, *cube, *port, 0),
        Entry::Spread { cube, vault, bank } => blank(6, *cube, *vault, *bank),
        Entry::Executed {
            unit,
            host,
            tag,
            request,
            answer,
        } => executed(*unit, *host, *tag, request, answer),
        Entry::Lifted { cube, from, port } => blank(8, *cube, lift_number(*from), *port),
        Entry::Took { host, tag, answer } => {
            let mut out = blank(9, *host, 0, 0);
            out.tag = *tag;
            add_answer(&mut out, answer);
            out
        }
        Entry::Discarded { host } => blank(10, *host, 0, 0),
        Entry::Through {
            cube,
            port,
            direction,
        } => blank(11, *cube, *port, *direction),
        Entry::Unlocked { direction } => blank(12, *direction, 0, 0),
        Entry::Retired { slot } => blank(13, *slot, 0, 0),
        Entry::Passed { direction, flit } => {
            let mut out = blank(14, *direction, 0, 0);
            set_flit(&mut out, flit);
            out
        }
        Entry::Idle { step, cause } => {
            let mut out = step_into(step);
            out.cause = cause_number(*cause);
            out
        }
    }
}

// Shows the latest entry of a session, if it has one.
fn show_last(held: &Held, out: &mut EntryOut) -> u8
    ensures entry { (setup : Setup) (past : List Entry) (entry : Entry) →
        StandsIn (shown held.now) setup (entry ∷ past) →
        (result ≡ ok) × (out.new ≡ shown_entry entry) }
    ensures none { (setup : Setup) → StandsIn (shown held.now) setup [] →
        (result ≡ none) × (out.new ≡ out.old) }
{
    match held.kept.session().last() {
        Some(last) => {
            *out = shown_entry(&last.entry());
            OK
        }
        None => NONE,
    }
}

/// Shows the latest entry.
///
/// 0: it is shown. 8: no step was taken; nothing is written. 9: the handle is closed.
#[tactic(auto, using(crate::proofs::KeptLemmas::stands_in))]
#[unsafe(no_mangle)]
pub extern "C" fn hmc_entry(alloc: Global, handle: &mut Handle, out: &mut EntryOut) -> u8
    ensures entry { (setup : Setup) (past : List Entry) (entry : Entry) →
        HandleStands handle.old.value setup (entry ∷ past) →
        (result ≡ ok) × (out.new ≡ shown_entry entry) }
    ensures none { (setup : Setup) → HandleStands handle.old.value setup [] →
        (result ≡ none) × (out.new ≡ out.old) }
    ensures closed { handle.old.value ≡ None → (result ≡ closed) × (out.new ≡ out.old) }
    ensures stays { handle.new.value ≡ handle.old.value }
{
    with_held!(alloc, handle, |held| show_last(&held, out))
}
