//! What a handle keeps: a session, with a tape or without.

ghost use Rattle.std.specs.Prelude.{◌≡◌, ◌<◌, List, IfOk, false, true};
ghost use Rattle.std.specs.Option.{MatchOption};
ghost use Rattle.hmc_codes.specs.Limits.{most_hosts};
ghost use Rattle.hmc_entries.specs.declared.entry.Entry.{Entry};
ghost use Rattle.hmc_journal.specs.Setup.{Setup};
ghost use Rattle.hmc_script.specs.Items.{asked_item};
ghost use Rattle.hmc_session.specs.Refusals.{ask_refusal, step_refusal};
ghost use Rattle.hmc_session.specs.Session.{StandsIn};
ghost use Rattle.hmc_tape.specs.Tape.{IsTapeOf};
ghost use Rattle.hmc_units.specs.Kinds.{unit_of};
ghost use Rattle.hmc_units.specs.Slots.{units_in};
ghost use Rattle.hmc_c.specs.Asks.{AsksBy};
ghost use Rattle.hmc_c.specs.Kept.{IsBegun, KeepsParts, KeptStands, fields_in, has_tape, plain_fields, session_in, tape_fields};
ghost use Rattle.hmc_c.specs.Laying.{NextBy, RunBy};
ghost use Rattle.hmc_c.specs.Steps.{StepsBy, kept_finished};
ghost use Rattle.hmc_c.specs.Words.{TextAsked};

use crate::status::{
    MEMORY, OK, asked_status, line_status, next_status, ran_status, refused_status, taken_status,
};
use hmc_case::Case;
use hmc_codes::{Memory, Request};
use hmc_schedule::Step;
use hmc_session::{Laid, Session, Stops};
use hmc_tape::{NotTaped, Taped};
use hmc_units::{Shipped, Slots};
use std::alloc::Global;

/// A session whose logic units are of the shipped kinds.
pub(crate) type Plain = Session<Slots<Shipped>>;

/// The same with a tape.
pub(crate) type WithTape = Taped<Slots<Shipped>>;

/// What a handle keeps.
#[derive(Drop)]
pub(crate) enum Kept {
    /// A session without a tape.
    Untaped(Plain),
    /// A session with one.
    OnTape(WithTape),
}

// Takes a step of a session, if nothing refuses it.
fn step_plain(session: &mut Plain, step: &Step) -> u8
    ensures steps { (setup : Setup) (past : List Entry) →
        StandsIn (plain_fields session.old) setup past →
        StepsBy result false (step_refusal (plain_fields session.old) step.now)
        (StandsIn (plain_fields session.new)) setup past step.now }
    ensures finished { session.new.finished ≡ session.old.finished }
    ensures plan { session.new.plan ≡ session.old.plan }
{
    match session.step(step) {
        Ok(went) => taken_status(went),
        Err(refusal) => refused_status(refusal),
    }
}

// The same with a tape.
fn step_taped(taped: &mut WithTape, step: &Step) -> u8
    ensures steps { (setup : Setup) (past : List Entry) →
        IsTapeOf (tape_fields taped.old) setup past →
        StepsBy result true (step_refusal (plain_fields taped.old.session) step.now)
        (IsTapeOf (tape_fields taped.new)) setup past step.now }
    ensures finished { taped.new.session.finished ≡ taped.old.session.finished }
    ensures plan { taped.new.session.plan ≡ taped.old.session.plan }
{
    match taped.step(step) {
        Ok(went) => taken_status(went),
        Err(NotTaped::Refused(refusal)) => refused_status(refusal),
        Err(NotTaped::Memory) => MEMORY,
    }
}

// Asks a host of a session for one request more, if nothing refuses it.
fn ask_plain(session: &mut Plain, host: u8, fenced: bool, poisoned: bool, request: &Request) -> u8
    ensures does { (setup : Setup) (past : List Entry) →
        StandsIn (plain_fields session.old) setup past →
        AsksBy result (ask_refusal (plain_fields session.old) host request.now.cube)
        (StandsIn (plain_fields session.new)) setup past
        (asked_item host fenced poisoned request.now) }
    ensures finished { session.new.finished ≡ session.old.finished }
    ensures plan { session.new.plan ≡ session.old.plan }
{
    match session.ask(host, fenced, poisoned, request) {
        Ok(()) => OK,
        Err(refusal) => asked_status(refusal),
    }
}

// The same with a tape.
fn ask_taped(taped: &mut WithTape, host: u8, fenced: bool, poisoned: bool, request: &Request) -> u8
    ensures does { (setup : Setup) (past : List Entry) →
        IsTapeOf (tape_fields taped.old) setup past →
        AsksBy result (ask_refusal (plain_fields taped.old.session) host request.now.cube)
        (IsTapeOf (tape_fields taped.new)) setup past
        (asked_item host fenced poisoned request.now) }
    ensures finished { taped.new.session.finished ≡ taped.old.session.finished }
    ensures plan { taped.new.session.plan ≡ taped.old.session.plan }
{
    match taped.ask(host, fenced, poisoned, request) {
        Ok(()) => OK,
        Err(refusal) => asked_status(refusal),
    }
}

// Asks for the one request that a text states, if nothing refuses it.
fn ask_text_plain(session: &mut Plain, alloc: Global, text: &str) -> u8
    ensures does { (setup : Setup) (past : List Entry) →
        StandsIn (plain_fields session.old) setup past →
        TextAsked result (plain_fields session.old) (StandsIn (plain_fields session.new)) setup
        past text.now }
    ensures finished { session.new.finished ≡ session.old.finished }
    ensures plan { session.new.plan ≡ session.old.plan }
{
    match session.ask_line(alloc, text) {
        Ok(()) => OK,
        Err(refusal) => line_status(refusal),
    }
}

// The same with a tape.
fn ask_text_taped(taped: &mut WithTape, alloc: Global, text: &str) -> u8
    ensures does { (setup : Setup) (past : List Entry) →
        IsTapeOf (tape_fields taped.old) setup past →
        TextAsked result (plain_fields taped.old.session) (IsTapeOf (tape_fields taped.new)) setup
        past text.now }
    ensures finished { taped.new.session.finished ≡ taped.old.session.finished }
    ensures plan { taped.new.session.plan ≡ taped.old.session.plan }
{
    match taped.ask_line(alloc, text) {
        Ok(()) => OK,
        Err(refusal) => line_status(refusal),
    }
}

// Takes the next of the steps that are laid down.
fn next_plain(session: &mut Plain, laid: &mut Laid) -> u8
    ensures does { (setup : Setup) (past : List Entry) →
        StandsIn (plain_fields session.old) setup past →
        NextBy result false (plain_fields session.old) (StandsIn (plain_fields session.new)) setup
        past laid.old laid.new }
    ensures finished { session.new.finished ≡ session.old.finished }
    ensures plan { session.new.plan ≡ session.old.plan }
{
    next_status(session.next(laid))
}

// The same with a tape.
fn next_taped(taped: &mut WithTape, laid: &mut Laid) -> u8
    ensures does { (setup : Setup) (past : List Entry) →
        IsTapeOf (tape_fields taped.old) setup past →
        NextBy result true (plain_fields taped.old.session) (IsTapeOf (tape_fields taped.new)) setup
        past laid.old laid.new }
    ensures finished { taped.new.session.finished ≡ taped.old.session.finished }
    ensures plan { taped.new.session.plan ≡ taped.old.session.plan }
{
    match taped.next(laid) {
        Ok(went) => next_status(Ok(went)),
        Err(NotTaped::Refused(refusal)) => refused_status(refusal),
        Err(NotTaped::Memory) => MEMORY,
    }
}

// Takes steps that are laid down up to an entry of a chosen kind, and tries at most so many.
fn run_plain(session: &mut Plain, laid: &mut Laid, most: u32, stops: &Stops) -> u8
    ensures does { (setup : Setup) (past : List Entry) →
        StandsIn (plain_fields session.old) setup past →
        RunBy result false (StandsIn (plain_fields session.new)) (plain_fields session.new) setup
        past laid.old laid.new stops.now most }
    ensures finished { session.new.finished ≡ session.old.finished }
    ensures plan { session.new.plan ≡ session.old.plan }
{
    ran_status(session.run(laid, most, stops))
}

// The same with a tape.
fn run_taped(taped: &mut WithTape, laid: &mut Laid, most: u32, stops: &Stops) -> u8
    ensures does { (setup : Setup) (past : List Entry) →
        IsTapeOf (tape_fields taped.old) setup past →
        RunBy result true (IsTapeOf (tape_fields taped.new)) (plain_fields taped.new.session) setup
        past laid.old laid.new stops.now most }
    ensures finished { taped.new.session.finished ≡ taped.old.session.finished }
    ensures plan { taped.new.session.plan ≡ taped.old.session.plan }
{
    match taped.run(laid, most, stops) {
        Ok(ran) => ran_status(ran),
        Err(_) => MEMORY,
    }
}

// A session of a case before its first step, without a tape.
fn begin_plain(alloc: Global, case: &Case, bench: Slots<Shipped>) -> Result<Kept, Memory>
    ensures { IfOk result (λ kept. IsBegun kept false case.now (units_in unit_of bench)) }
{
    match Session::begin(alloc, case, bench) {
        Ok(session) => Ok(Kept::Untaped(session)),
        Err(memory) => Err(memory),
    }
}

// The same with a tape.
fn begin_taped(alloc: Global, case: &Case, bench: Slots<Shipped>) -> Result<Kept, Memory>
    ensures { IfOk result (λ kept. IsBegun kept true case.now (units_in unit_of bench)) }
{
    match Taped::begin(alloc, case, bench) {
        Ok(taped) => Ok(Kept::OnTape(taped)),
        Err(memory) => Err(memory),
    }
}

impl Kept {
    /// A session of a case before its first step, with a tape or without. `Memory` if out of
    /// memory.
    pub(crate) fn begin(
        alloc: Global,
        case: &Case,
        bench: Slots<Shipped>,
        tape: bool,
    ) -> Result<Kept, Memory>
        ensures { IfOk result (λ kept. IsBegun kept tape case.now (units_in unit_of bench)) }
    {
        if tape {
            begin_taped(alloc, case, bench)
        } else {
            begin_plain(alloc, case, bench)
        }
    }

    /// The session, with all that it shows.
    pub(crate) fn session(&self) -> &Plain
        ensures { result.now ≡ session_in self.now }
    {
        match self {
            Kept::Untaped(session) => session,
            Kept::OnTape(taped) => taped.session(),
        }
    }

    /// The session with its tape, if it has one.
    pub(crate) fn tape(&self) -> Option<&WithTape>
        ensures { MatchOption result (has_tape self.now ≡ false)
            (λ taped. self.now ≡ Kept.OnTape taped.now) }
    {
        match self {
            Kept::Untaped(_) => None,
            Kept::OnTape(taped) => Some(taped),
        }
    }

    /// Takes a step, and returns its status.
    pub(crate) fn step(&mut self, step: &Step) -> u8
        ensures does { (setup : Setup) (past : List Entry) → KeptStands self.old setup past →
            StepsBy result (has_tape self.old) (step_refusal (fields_in self.old) step.now)
            (KeptStands self.new) setup past step.now }
        ensures parts { KeepsParts self.old self.new }
    {
        match self {
            Kept::Untaped(session) => step_plain(session, step),
            Kept::OnTape(taped) => step_taped(taped, step),
        }
    }

    /// Asks a host for one request more, and returns the status.
    pub(crate) fn ask(&mut self, host: u8, fenced: bool, poisoned: bool, request: &Request) -> u8
        ensures does { (setup : Setup) (past : List Entry) → KeptStands self.old setup past →
            AsksBy result (ask_refusal (fields_in self.old) host request.now.cube)
            (KeptStands self.new) setup past (asked_item host fenced poisoned request.now) }
        ensures parts { KeepsParts self.old self.new }
    {
        match self {
            Kept::Untaped(session) => ask_plain(session, host, fenced, poisoned, request),
            Kept::OnTape(taped) => ask_taped(taped, host, fenced, poisoned, request),
        }
    }

    /// Asks for the one request that a text states, and returns the status.
    pub(crate) fn ask_text(&mut self, alloc: Global, text: &str) -> u8
        ensures does { (setup : Setup) (past : List Entry) → KeptStands self.old setup past →
            TextAsked result (fields_in self.old) (KeptStands self.new) setup past text.now }
        ensures parts { KeepsParts self.old self.new }
    {
        match self {
            Kept::Untaped(session) => ask_text_plain(session, alloc, text),
            Kept::OnTape(taped) => ask_text_taped(taped, alloc, text),
        }
    }

    /// Takes the next of the steps that are laid down, and returns its status.
    pub(crate) fn next(&mut self, laid: &mut Laid) -> u8
        ensures does { (setup : Setup) (past : List Entry) → KeptStands self.old setup past →
            NextBy result (has_tape self.old) (fields_in self.old) (KeptStands self.new) setup past
            laid.old laid.new }
        ensures parts { KeepsParts self.old self.new }
    {
        match self {
            Kept::Untaped(session) => next_plain(session, laid),
            Kept::OnTape(taped) => next_taped(taped, laid),
        }
    }

    /// Takes steps that are laid down, and returns how that ended.
    pub(crate) fn run(&mut self, laid: &mut Laid, most: u32, stops: &Stops) -> u8
        ensures does { (setup : Setup) (past : List Entry) → KeptStands self.old setup past →
            RunBy result (has_tape self.old) (KeptStands self.new) (fields_in self.new) setup past
            laid.old laid.new stops.now most }
        ensures parts { KeepsParts self.old self.new }
    {
        match self {
            Kept::Untaped(session) => run_plain(session, laid, most, stops),
            Kept::OnTape(taped) => run_taped(taped, laid, most, stops),
        }
    }

    /// Asks a host for nothing more. The host is below `MOST_HOSTS`.
    pub(crate) fn finish(&mut self, host: u8)
        requires { host < most_hosts }
        ensures left { self.new ≡ kept_finished host self.old }
        ensures stands { (setup : Setup) (past : List Entry) → KeptStands self.old setup past →
            KeptStands self.new setup past }
    {
        match self {
            Kept::Untaped(session) => session.finish(host),
            Kept::OnTape(taped) => taped.finish(host),
        }
    }
}
