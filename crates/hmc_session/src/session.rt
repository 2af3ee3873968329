//! Sessions.

ghost use Rattle.std.specs.Prelude.{◌≡◌, ◌<◌, ℕ, [], ◌∷◌, length, not, slice_index_or, if◌then◌else◌, List, Some, None, Err, true, false, replicate, slice_set, IfOk, IfErr, OnOk, OnErr};
ghost use Rattle.std.specs.Option.{unwrap_or};
ghost use Rattle.hmc_codes.specs.Limits.{most_hosts};
ghost use Rattle.hmc_schedule.specs.Plan.{IsStepOf};
ghost use Rattle.hmc_case.specs.Plan.{plan_of};
ghost use Rattle.hmc_entries.specs.declared.entry.Entry.{Entry};
ghost use Rattle.hmc_journal.specs.Next.{next};
ghost use Rattle.hmc_journal.specs.Setup.{Setup};
ghost use Rattle.hmc_growing.specs.Growing.{with_step, with_item};
ghost use Rattle.hmc_script.specs.Items.{asked_item};
ghost use Rattle.hmc_net.specs.Went.{went_of};
ghost use Rattle.hmc_session.specs.Session.{session_of, StandsIn, IsHostOf, IsWaiting, MayAsk, begun, is_finished, waits_in};
ghost use Rattle.hmc_session.specs.Refusals.{step_refusal, ask_refusal, has_step, refusal_in};
ghost use Rattle.hmc_session.specs.declared.refusal.NotTaken.TheVariants.{Unknown, Over};

use crate::count::StepCount;
use crate::parts::{has_flit, has_step, host_count};
use crate::{NotAsked, NotTaken};
use hmc_case::Case;
use hmc_codes::{MOST_ASKED, MOST_HOSTS, Memory, Request};
use hmc_net::{Network, Went};
use hmc_schedule::{Plan, Step};
use hmc_units::Workbench;
use std::alloc::Global;
use std::marker::Model;

/// A network that is asked for requests and stepped while it runs, with the logic units of its
/// bench. A host is open until it is finished.
///
/// A session stands for a case and its journal: the case has the requests that were asked and the
/// steps that were taken so far, and the journal has an entry for each step (`StandsIn`).
#[derive(Drop)]
pub struct Session<B: Workbench> {
    network: Network<B>,
    plan: Plan,
    finished: [bool; MOST_HOSTS as usize],
    count: StepCount,
}

impl<B: Workbench> Model for Session<B> {
    ghost use Rattle.hmc_session.specs.Session.{SessionParts, IsSession, session_of};

    ghost Value = { SessionParts B };

    ghost view = { λ s. record {
      network = s.network;
      plan = s.plan;
      finished = s.finished;
      taken = s.count.taken;
      passed = s.count.passed;
    } };

    ghost invariant = { λ s. IsSession (session_of B.slots (record {
      network = s.network;
      plan = s.plan;
      finished = s.finished;
      taken = s.count.taken;
      passed = s.count.passed;
    })) };
}

// Why a step isn't taken where none may follow. It is out of the way of steps that are taken.
#[inline(never)]
fn over_refusal(plan: &Plan, step: &Step) -> NotTaken
    ensures { result ≡ (if not (has_step plan.now step.now) then Unknown else Over) }
{
    if !has_step(plan, step) {
        return NotTaken::Unknown;
    }
    NotTaken::Over
}

// Whether a host is finished. One that isn't there is.
#[inline(always)]
fn is_finished(finished: &[bool; MOST_HOSTS as usize], host: u8) -> bool
    ensures { result ≡ slice_index_or finished.now host true }
{
    match finished.get(usize::from(host)) {
        Some(finished) => *finished,
        None => true,
    }
}

// Whether the step is a give of a host that has given all of its requests and isn't finished.
#[inline(always)]
fn waits<B: Workbench>(
    network: &Network<B>,
    finished: &[bool; MOST_HOSTS as usize],
    step: &Step,
) -> bool
    requires { IsHostOf (length network.now.hosts) step.now }
    ensures { result ≡ waits_in finished.now network.now.hosts step.now }
{
    match step {
        Step::Give(host) => !is_finished(finished, *host) && network.is_at_end(*host),
        _ => false,
    }
}

// Why a step isn't taken where one may follow, if it isn't: it is none of the plan, or it waits.
#[inline(always)]
fn due_refusal<B: Workbench>(
    plan: &Plan,
    network: &Network<B>,
    finished: &[bool; MOST_HOSTS as usize],
    step: &Step,
) -> Option<NotTaken>
    requires { (host : ℕ) → host < plan.now.hosts → host < length network.now.hosts }
    ensures value { result ≡
        refusal_in plan.now finished.now network.now.hosts step.now }
    ensures within { result ≡ None → IsStepOf plan.now step.now }
{
    if !has_step(plan, step) {
        return Some(NotTaken::Unknown);
    }
    if waits(network, finished, step) {
        return Some(NotTaken::Waits);
    }
    None
}

impl<B: Workbench> Session<B> {
    /// The session of a case before its first step. Its hosts are asked for the requests of the
    /// script, and open. No step of the schedule is taken. `Memory` if out of memory.
    pub fn begin(alloc: Global, case: &Case, bench: B) -> Result<Self, Memory>
        ensures stands { IfOk result (λ session. StandsIn (session_of B.slots session)
            (begun case.now (B.slots bench)) []) }
        ensures open { IfOk result (λ session. session.finished ≡ replicate most_hosts false) }
        ensures plan { IfOk result (λ session. session.plan ≡ plan_of case.now.net) }
    {
        case.invariant();
        let plan = case.plan(alloc)?;
        let network = Network::build(alloc, case, bench)?;
        Ok(Session {
            network,
            plan,
            finished: [false; MOST_HOSTS as usize],
            count: StepCount::new(),
        })
    }

    /// The network, with all that it shows: the latest entry, what is under way, memories,
    /// registers, tokens and counts.
    pub fn network(&self) -> &Network<B>
        ensures { result.now ≡ self.now.network }
    {
        &self.network
    }

    /// The parts that its steps may name.
    pub fn plan(&self) -> &Plan
        ensures { result.now ≡ self.now.plan }
    {
        &self.plan
    }

    /// The number of steps that were taken.
    pub fn taken(&self) -> u32
        ensures { result ≡ self.now.taken }
    {
        self.count.taken()
    }

    /// Whether a landing passed. Then no step may follow.
    pub fn has_passed(&self) -> bool
        ensures { result ≡ self.now.passed }
    {
        self.count.has_passed()
    }

    /// Takes a step. An error says why it isn't taken; then nothing changes.
    #[inline(always)]
    pub fn step(&mut self, step: &Step) -> Result<Went, NotTaken>
        // It is taken exactly where nothing refuses it.
        ensures refused { IfErr result (λ refusal.
            step_refusal (session_of B.slots self.old) step.now ≡ Some refusal) }
        ensures taken { OnOk result
            (step_refusal (session_of B.slots self.old) step.now ≡ None) }
        ensures same { OnErr result
            (session_of B.slots self.new ≡ session_of B.slots self.old) }

        // The session stands for the case with this step, and for the journal with its entry.
        ensures stands { (setup : Setup) (past : List Entry) →
            StandsIn (session_of B.slots self.old) setup past →
            OnOk result (StandsIn (session_of B.slots self.new)
            (with_step setup step.now) (next setup past step.now ∷ past)) }
        ensures went { (setup : Setup) (past : List Entry) →
            StandsIn (session_of B.slots self.old) setup past →
            IfOk result (λ went. went ≡ went_of (next setup past step.now)) }
        ensures last { IfOk result (λ went. went ≡ went_of self.new.network.last) }

        // Only a give waits, of a host that isn't finished and has no request left.
        ensures waits { (setup : Setup) (past : List Entry) →
            StandsIn (session_of B.slots self.old) setup past → result ≡ Err NotTaken.Waits →
            IsWaiting self.old.finished setup past step.now }
        ensures finished { self.new.finished ≡ self.old.finished }
        ensures plan { self.new.plan ≡ self.old.plan }
    {
        // It is counted before it is looked at, so that what it is is told apart once.
        if self.count.add_unless_over() {
            return Err(over_refusal(&self.plan, step));
        }
        if let Some(refusal) = due_refusal(&self.plan, &self.network, &self.finished, step) {
            self.count.take_back();
            return Err(refusal);
        }
        has_flit(step);
        let went = self.network.step(step);
        self.count.note(went);
        Ok(went)
    }

    /// Asks a host for one request more, with a fence before it or without. An error says why it
    /// isn't asked; then nothing changes.
    pub fn ask(
        &mut self,
        host: u8,
        fenced: bool,
        poisoned: bool,
        request: &Request,
    ) -> Result<(), NotAsked>
        // It is asked where nothing refuses it, unless out of memory.
        ensures refused { IfErr result (λ refusal. refusal ≡ unwrap_or
            (ask_refusal (session_of B.slots self.old) host request.now.cube) NotAsked.Memory) }
        ensures asked { OnOk result
            (ask_refusal (session_of B.slots self.old) host request.now.cube ≡ None) }
        ensures same { OnErr result
            (session_of B.slots self.new ≡ session_of B.slots self.old) }

        // The session stands for the case with this request, and for the same journal.
        ensures stands { (setup : Setup) (past : List Entry) →
            StandsIn (session_of B.slots self.old) setup past →
            OnOk result (StandsIn (session_of B.slots self.new)
            (with_item setup (asked_item host fenced poisoned request.now)) past) }
        ensures finished { self.new.finished ≡ self.old.finished }
        ensures plan { self.new.plan ≡ self.old.plan }
    {
        if let Some(refusal) = self.ask_refusal(host, request.cube) {
            return Err(refusal);
        }
        self.network.ask(host, fenced, poisoned, request)?;
        Ok(())
    }

    /// Asks a host for nothing more, from now on: where it has given all of its requests, its gives
    /// are steps that do nothing. The host is below `MOST_HOSTS`.
    pub fn finish(&mut self, host: u8)
        requires { host < most_hosts }
        ensures finished { self.new ≡ record self.old {
          finished = slice_set self.old.finished host true;
        } }
        ensures stands { (setup : Setup) (past : List Entry) →
            StandsIn (session_of B.slots self.old) setup past →
            StandsIn (session_of B.slots self.new) setup past }
    {
        self.finished[usize::from(host)] = true;
    }

    /// Why this step would not be taken now, if it would not.
    #[inline(always)]
    pub fn step_refusal(&self, step: &Step) -> Option<NotTaken>
        ensures value { result ≡ step_refusal (session_of B.slots self.now) step.now }
        ensures within { result ≡ None → IsStepOf self.now.plan step.now }
        ensures waits { (setup : Setup) (past : List Entry) →
            StandsIn (session_of B.slots self.now) setup past → result ≡ Some NotTaken.Waits →
            IsWaiting self.now.finished setup past step.now }
    {
        if self.count.is_over() {
            return Some(over_refusal(&self.plan, step));
        }
        due_refusal(&self.plan, &self.network, &self.finished, step)
    }

    /// Why this host would not be asked for a request to this cube now, if it would not: out of
    /// memory is found only by asking.
    pub fn ask_refusal(&self, host: u8, cube: u8) -> Option<NotAsked>
        ensures value { result ≡ ask_refusal (session_of B.slots self.now) host cube }
        ensures may { result ≡ None → MayAsk (session_of B.slots self.now) host cube }
    {
        if host >= host_count(&self.plan) {
            return Some(NotAsked::NoHost);
        }
        if cube >= self.plan.cube_count() {
            return Some(NotAsked::NoCube);
        }
        if self.finished[usize::from(host)] {
            return Some(NotAsked::Finished);
        }
        if self.network.asked(host) >= MOST_ASKED {
            return Some(NotAsked::Full);
        }
        None
    }

    /// Whether a host is asked for nothing more. One that isn't there is finished.
    pub fn is_finished(&self, host: u8) -> bool
        ensures { result ≡ is_finished (session_of B.slots self.now) host }
    {
        is_finished(&self.finished, host)
    }

    /// Takes a step that nothing refuses, which `step_refusal` says.
    #[inline(always)]
    pub fn take(&mut self, step: &Step) -> Went
        requires within { IsStepOf self.old.plan step.now }
        requires free { step_refusal (session_of B.slots self.old) step.now ≡ None }
        ensures stands { (setup : Setup) (past : List Entry) →
            StandsIn (session_of B.slots self.old) setup past →
            StandsIn (session_of B.slots self.new)
            (with_step setup step.now) (next setup past step.now ∷ past) }
        ensures went { (setup : Setup) (past : List Entry) →
            StandsIn (session_of B.slots self.old) setup past →
            result ≡ went_of (next setup past step.now) }
        ensures last { result ≡ went_of self.new.network.last }
        ensures finished { self.new.finished ≡ self.old.finished }
        ensures plan { self.new.plan ≡ self.old.plan }
    {
        has_flit(step);
        self.count.add();
        let went = self.network.step(step);
        self.count.note(went);
        went
    }
}
