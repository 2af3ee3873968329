//! Sessions with a tape.

ghost use Rattle.std.specs.Prelude.{◌≡◌, ◌<◌, ◌≤◌, [], ◌∷◌, List, length, true, false, replicate, slice_set, Some, None, Ok, IfOk, IfErr, IfSome, OnOk, OnErr};
ghost use Rattle.std.specs.Option.{unwrap_or};
ghost use Rattle.hmc_case.specs.Plan.{plan_of};
ghost use Rattle.hmc_codes.specs.Limits.{most_hosts, most_requests, most_steps};
ghost use Rattle.hmc_entries.specs.declared.entry.Entry.{Entry};
ghost use Rattle.hmc_growing.specs.Growing.{with_item};
ghost use Rattle.hmc_journal.specs.Setup.{Setup};
ghost use Rattle.hmc_script.specs.Items.{asked_item};
ghost use Rattle.hmc_schedule.specs.Schedule.{schedule_of};
ghost use Rattle.hmc_schedule.specs.declared.step.Step.{Step};
ghost use Rattle.hmc_script.specs.Script.{script_of};
ghost use Rattle.hmc_session.specs.Asking.{told_of, line_refusal};
ghost use Rattle.hmc_session.specs.Refusals.{ask_refusal};
ghost use Rattle.hmc_session.specs.Session.{session_of, begun};
ghost use Rattle.hmc_session.specs.declared.refusal.NotAsked.TheVariants as causes;
ghost use Rattle.hmc_tape.specs.Calls.{TapesBy, TapesNext, TapesNone, TapesAsked};
ghost use Rattle.hmc_tape.specs.Tape.{taped_of, IsTapeOf};

use crate::append::append;
use hmc_case::Case;
use hmc_codes::{LineText, Memory, Request};
use hmc_entries::step_fits;
use hmc_net::Went;
use hmc_schedule::Step;
use hmc_script::item_lines;
use hmc_session::{Laid, LineNotAsked, NotAsked, NotTaken, Session};
use hmc_step_text::step_line;
use hmc_units::Workbench;
use std::alloc::Global;
use std::marker::Model;

/// Why a taped session doesn't take a step.
#[derive(Clone, Copy)]
pub enum NotTaped {
    /// The session refuses it.
    Refused(NotTaken),
    /// Nothing refuses it, but the tape is out of memory.
    Memory,
}

/// A session, and its tape: the script of its requests and the schedule of its steps. Contracts see
/// the session and the bytes of the two texts.
#[derive(Drop)]
pub struct Taped<B: Workbench> {
    session: Session<B>,
    script: String,
    schedule: String,
}

impl<B: Workbench> Model for Taped<B> {
    ghost use Rattle.std.specs.Prelude.{string_bytes};
    ghost use Rattle.hmc_tape.specs.Tape.{TapedParts};

    ghost Value = { TapedParts B };

    ghost view = { λ t. record {
      session = t.session;
      script = string_bytes t.script;
      schedule = string_bytes t.schedule;
    } };
}

impl<B: Workbench> Taped<B> {
    /// The session of a case before its first step, with its tape: the script of the case, and no
    /// step. `Memory` if out of memory.
    pub fn begin(alloc: Global, case: &Case, bench: B) -> Result<Self, Memory>
        ensures tape { IfOk result (λ taped. IsTapeOf (taped_of B.slots taped)
            (begun case.now (B.slots bench)) []) }
        ensures open { IfOk result
            (λ taped. taped.session.finished ≡ replicate most_hosts false) }
        ensures plan { IfOk result (λ taped. taped.session.plan ≡ plan_of case.now.net) }
    {
        case.invariant();
        let script = case.script().print(alloc)?;
        let session = Session::begin(alloc, case, bench)?;
        Ok(Taped {
            session,
            script,
            schedule: String::new(alloc),
        })
    }

    /// The session, with all that it shows.
    pub fn session(&self) -> &Session<B>
        ensures { result.now ≡ self.now.session }
    {
        &self.session
    }

    /// The session alone, from now on without a tape.
    pub fn into_session(self) -> Session<B>
        ensures { result ≡ self.session }
    {
        self.session
    }

    /// The requests so far as a script: each that was asked for, those of the case among them.
    pub fn script(&self) -> &str
        ensures text { result.now ≡ self.now.script }

        // It is read as the requests of the case, unless they are too many for a script.
        ensures read { (setup : Setup) (past : List Entry) →
            IsTapeOf (taped_of B.slots self.now) setup past → length setup.script ≤ most_requests →
            script_of self.now.session.plan.hosts (length self.now.session.plan.cubes) result.now
            ≡ Ok setup.script }
    {
        self.script.as_str()
    }

    /// The steps so far as a schedule: each that was taken, with its mask.
    pub fn schedule(&self) -> &str
        ensures text { result.now ≡ self.now.schedule }

        // It is read as the steps of the case, unless they are too many for a schedule.
        ensures read { (setup : Setup) (past : List Entry) →
            IsTapeOf (taped_of B.slots self.now) setup past → length setup.schedule ≤ most_steps →
            schedule_of self.now.session.plan result.now ≡ Ok setup.schedule }
    {
        self.schedule.as_str()
    }

    /// Takes a step, and has it on the tape. An error says why it isn't taken; then nothing
    /// changes.
    pub fn step(&mut self, step: &Step) -> Result<Went, NotTaped>
        ensures steps { TapesBy
            (taped_of B.slots self.old) (taped_of B.slots self.new) step.now result }
        ensures finished { self.new.session.finished ≡ self.old.session.finished }
        ensures plan { self.new.session.plan ≡ self.old.session.plan }
    {
        if let Some(refusal) = self.session.step_refusal(step) {
            return Err(NotTaped::Refused(refusal));
        }
        if let Err(_) = self.schedule.push_str(step_line(step).as_str()) {
            return Err(NotTaped::Memory);
        }
        step_fits(step);
        Ok(self.session.take(step))
    }

    /// Takes the next of the steps that are laid down. `None` if none is left. A step that is
    /// refused is off the list too; one that the tape has no memory for stays.
    pub fn next(&mut self, laid: &mut Laid) -> Result<Option<Went>, NotTaped>
        ensures none { laid.old ≡ [] → TapesNone
            (taped_of B.slots self.old) (taped_of B.slots self.new) laid.new result }
        ensures steps { (step : Step) (rest : List Step) → laid.old ≡ step ∷ rest → TapesNext
            (taped_of B.slots self.old) (taped_of B.slots self.new) step rest laid.new result }
        ensures finished { self.new.session.finished ≡ self.old.session.finished }
        ensures plan { self.new.session.plan ≡ self.old.session.plan }
    {
        let Some(step) = laid.first() else {
            return Ok(None);
        };
        match self.step(&step) {
            Ok(went) => {
                let _ = laid.take();
                Ok(Some(went))
            }
            Err(NotTaped::Refused(refusal)) => {
                let _ = laid.take();
                Err(NotTaped::Refused(refusal))
            }
            Err(NotTaped::Memory) => Err(NotTaped::Memory),
        }
    }

    /// Asks a host for one request more, with a fence before it or without, and has it on the tape.
    /// An error says why it isn't asked; then nothing changes.
    pub fn ask(
        &mut self,
        host: u8,
        fenced: bool,
        poisoned: bool,
        request: &Request,
    ) -> Result<(), NotAsked>
        // It is asked where nothing refuses it, unless out of memory.
        ensures refused { IfErr result (λ refusal. refusal ≡ unwrap_or
            (ask_refusal (session_of B.slots self.old.session) host request.now.cube)
            causes.Memory) }
        ensures asked { OnOk result
            (ask_refusal (session_of B.slots self.old.session) host request.now.cube ≡ None) }
        ensures same { OnErr result
            (taped_of B.slots self.new ≡ taped_of B.slots self.old) }

        // The tape is that of the case with this request, whose journal is the same.
        ensures tape { (setup : Setup) (past : List Entry) →
            IsTapeOf (taped_of B.slots self.old) setup past →
            OnOk result (IsTapeOf (taped_of B.slots self.new)
            (with_item setup (asked_item host fenced poisoned request.now)) past) }
        ensures finished { self.new.session.finished ≡ self.old.session.finished }
        ensures plan { self.new.session.plan ≡ self.old.session.plan }
    {
        if let Some(refusal) = self.session.ask_refusal(host, request.cube) {
            return Err(refusal);
        }
        let mut lines = LineText::new();
        item_lines(&mut lines, host, fenced, poisoned, request);
        if let Err(_) = self.script.reserve(lines.len()) {
            return Err(NotAsked::Memory);
        }
        if let Err(refusal) = self.session.ask(host, fenced, poisoned, request) {
            return Err(refusal);
        }
        append(&mut self.script, lines.as_str());
        Ok(())
    }

    /// Asks for the one request that a text states, as `ask_line` of a session does, and has it on
    /// the tape. An error says why no host is asked; then nothing changes.
    pub fn ask_line(&mut self, alloc: Global, text: &str) -> Result<(), LineNotAsked>
        // It is asked where nothing refuses it, unless out of memory.
        ensures refused { IfErr result (λ refusal. IfSome (told_of refusal) (λ told.
            line_refusal (session_of B.slots self.old.session) text.now ≡ Some told)) }
        ensures asked { OnOk result
            (line_refusal (session_of B.slots self.old.session) text.now ≡ None) }
        ensures same { OnErr result
            (taped_of B.slots self.new ≡ taped_of B.slots self.old) }

        // The tape is that of the case with the request of the text, whose journal is the same.
        ensures tape { (setup : Setup) (past : List Entry) →
            IsTapeOf (taped_of B.slots self.old) setup past →
            OnOk result (TapesAsked (taped_of B.slots self.old) (taped_of B.slots self.new)
            setup past text.now) }
        ensures finished { self.new.session.finished ≡ self.old.session.finished }
        ensures plan { self.new.session.plan ≡ self.old.session.plan }
    {
        let item = match self.session.item_of(alloc, text) {
            Ok(item) => item,
            Err(refusal) => return Err(refusal),
        };
        match self.ask(item.host, item.fenced, item.poisoned, &item.request) {
            Ok(()) => Ok(()),
            Err(refusal) => Err(LineNotAsked::Refused(refusal)),
        }
    }

    /// Asks a host for nothing more, as `finish` of a session does. The tape stays: a case has no
    /// word for it. The host is below `MOST_HOSTS`.
    pub fn finish(&mut self, host: u8)
        requires { host < most_hosts }
        ensures finished { self.new ≡ record self.old {
          session = record self.old.session {
            finished = slice_set self.old.session.finished host true;
          };
        } }
        ensures tape { (setup : Setup) (past : List Entry) →
            IsTapeOf (taped_of B.slots self.old) setup past →
            IsTapeOf (taped_of B.slots self.new) setup past }
    {
        self.session.finish(host);
    }
}
