//! A session takes laid steps up to an entry of a chosen kind.

ghost use Rattle.std.specs.Prelude.{◌≡◌, ◌∷◌, ◌++◌, ◌<◌, ◌≤◌, ◌-◌, List, drop, length};
ghost use Rattle.hmc_entries.specs.declared.entry.Entry.{Entry};
ghost use Rattle.hmc_journal.specs.Setup.{Setup};
ghost use Rattle.hmc_net.specs.Went.{went_of};
ghost use Rattle.hmc_schedule.specs.declared.step.Step.{Step};
ghost use Rattle.hmc_session.specs.Running.{RunsTo, TriesAll, TriesBy, ended_by, stopped_at};
ghost use Rattle.hmc_session.specs.Session.{session_of, StandsIn};
ghost use Rattle.hmc_session.specs.Stops.{IsQuiet};

use crate::stops::{is_quiet, stops_after, stops_at};
use crate::{Laid, NotTaken, Session, Stops};
use hmc_net::Went;
use hmc_schedule::Step;
use hmc_units::Workbench;

/// How a run of laid steps ended.
#[derive(Clone, Copy)]
pub enum Ran {
    /// The latest entry is of a chosen kind.
    Stopped,
    /// As many steps as it was to try were tried.
    Tried,
    /// No step is left.
    Ended,
    /// A step names a part that isn't there. It is off the list.
    Unknown,
    /// A landing passed, or `MOST_TAKEN` steps were taken, and a step was to follow. It is off the
    /// list.
    Over,
}

/// What came of steps that were tried one after another.
#[derive(Clone, Copy)]
struct Tries {
    /// How many of them are left.
    left: usize,
    /// How the run ended with the last one that was tried, if it did.
    ran: Option<Ran>,
}

// How a run ends with a step that isn't taken, if it does.
#[inline(always)]
fn ended_by(refusal: NotTaken) -> Option<Ran>
    ensures { result ≡ ended_by refusal }
{
    match refusal {
        NotTaken::Waits => None,
        NotTaken::Unknown => Some(Ran::Unknown),
        NotTaken::Over => Some(Ran::Over),
    }
}

impl<B: Workbench> Session<B> {
    /// Takes laid steps up to an entry of a chosen kind, and tries at most so many. A step that
    /// waits is passed over; one that is refused for another cause ends the run.
    pub fn run(&mut self, laid: &mut Laid, most: u32, stops: &Stops) -> Ran
        // The session stands for the case with the steps that were taken, and for the journal with
        // their entries. Each step that was tried was taken, or it waited when its turn came. No
        // earlier entry than the latest is of a chosen kind.
        ensures stands { (setup : Setup) (past : List Entry) →
            StandsIn (session_of B.slots self.old) setup past →
            RunsTo result (session_of B.slots self.new) setup past laid.old laid.new
            stops.now most }
        ensures finished { self.new.finished ≡ self.old.finished }
        ensures plan { self.new.plan ≡ self.old.plan }
    {
        if is_quiet(stops) {
            return self.run_on::<true>(laid, most, stops);
        }
        self.run_on::<false>(laid, most, stops)
    }

    // The same, which is told whether no kind is chosen: then no entry is looked at.
    fn run_on<const QUIET: bool>(&mut self, laid: &mut Laid, most: u32, stops: &Stops) -> Ran
        requires { IsQuiet QUIET stops.now }
        ensures stands { (setup : Setup) (past : List Entry) →
            StandsIn (session_of B.slots self.old) setup past →
            RunsTo result (session_of B.slots self.new) setup past laid.old laid.new
            stops.now most }
        ensures finished { self.new.finished ≡ self.old.finished }
        ensures plan { self.new.plan ≡ self.old.plan }
    {
        let mut left = most as usize;
        'steps: while left > 0 {
            let tries = self.try_some::<QUIET>(laid, left, stops);
            left = tries.left;
            if let Some(ran) = tries.ran {
                return ran;
            }
        }
        Ran::Tried
    }

    // Tries some of the laid steps, and at most so many: those at hand, or the next one.
    #[inline(always)]
    fn try_some<const QUIET: bool>(&mut self, laid: &mut Laid, most: usize, stops: &Stops) -> Tries
        requires quiet { IsQuiet QUIET stops.now }
        requires some { 0 < most }
        ensures tries { (setup : Setup) (past : List Entry) →
            StandsIn (session_of B.slots self.old) setup past →
            TriesAll (StandsIn (session_of B.slots self.new)) result.ran
            (session_of B.slots self.new) setup past laid.old laid.new stops.now
            (most - result.left) }
        ensures fewer { result.left < most }
        ensures finished { self.new.finished ≡ self.old.finished }
        ensures plan { self.new.plan ≡ self.old.plan }
    {
        laid.bring();
        let hand = laid.at_hand();
        if hand.is_empty() {
            let ran = self.try_found::<QUIET>(laid, stops);
            return Tries {
                left: most - 1,
                ran,
            };
        }
        let many = hand.len().min(most);
        let tries = self.try_all::<QUIET>(&hand[..many], stops);
        let tried = many - tries.left;
        laid.pass(tried);
        Tries {
            left: most - tried,
            ran: tries.ran,
        }
    }

    // Tries these steps one after another, up to one with which a run ends.
    #[inline(always)]
    fn try_all<const QUIET: bool>(&mut self, steps: &[Step], stops: &Stops) -> Tries
        requires { IsQuiet QUIET stops.now }
        ensures tries { (setup : Setup) (past : List Entry) (after : List Step) →
            StandsIn (session_of B.slots self.old) setup past →
            TriesAll (StandsIn (session_of B.slots self.new)) result.ran
            (session_of B.slots self.new) setup past (steps.now ++ after)
            (drop (length steps.now - result.left) steps.now ++ after) stops.now
            (length steps.now - result.left) }
        ensures few { result.left ≤ length steps.now - 1 }
        ensures finished { self.new.finished ≡ self.old.finished }
        ensures plan { self.new.plan ≡ self.old.plan }
    {
        let mut rest = steps;
        'steps: while let Some((step, more)) = rest.split_first() {
            rest = more;
            if let Some(ran) = self.try_step::<QUIET>(step, stops) {
                return Tries {
                    left: rest.len(),
                    ran: Some(ran),
                };
            }
        }
        Tries { left: 0, ran: None }
    }

    // Takes a step, unless it waits. `Some` where a run ends with it.
    #[inline(always)]
    fn try_step<const QUIET: bool>(&mut self, step: &Step, stops: &Stops) -> Option<Ran>
        requires { IsQuiet QUIET stops.now }
        ensures tries { (setup : Setup) (past : List Entry) (left : List Step) →
            StandsIn (session_of B.slots self.old) setup past →
            TriesBy (StandsIn (session_of B.slots self.new)) result (session_of B.slots self.new)
            setup past (step.now ∷ left) left stops.now }
        ensures finished { self.new.finished ≡ self.old.finished }
        ensures plan { self.new.plan ≡ self.old.plan }
    {
        match self.step(step) {
            Ok(went) => self.stopped_after::<QUIET>(went, stops),
            Err(refusal) => ended_by(refusal),
        }
    }

    // Takes the next laid step, unless it waits. `Some` where a run ends with it.
    #[inline(never)]
    fn try_found<const QUIET: bool>(&mut self, laid: &mut Laid, stops: &Stops) -> Option<Ran>
        requires { IsQuiet QUIET stops.now }
        ensures tries { (setup : Setup) (past : List Entry) →
            StandsIn (session_of B.slots self.old) setup past →
            TriesBy (StandsIn (session_of B.slots self.new)) result (session_of B.slots self.new)
            setup past laid.old laid.new stops.now }
        ensures finished { self.new.finished ≡ self.old.finished }
        ensures plan { self.new.plan ≡ self.old.plan }
    {
        match self.next_found(laid) {
            Ok(Some(went)) => self.stopped_after::<QUIET>(went, stops),
            Ok(None) => Some(Ran::Ended),
            Err(refusal) => ended_by(refusal),
        }
    }

    // The same after a step that went so.
    #[inline(always)]
    fn stopped_after<const QUIET: bool>(&self, went: Went, stops: &Stops) -> Option<Ran>
        requires went { went ≡ went_of self.now.network.last }
        requires quiet { IsQuiet QUIET stops.now }
        ensures { result ≡ stopped_at stops.now (session_of B.slots self.now).net.last }
    {
        if QUIET {
            return None;
        }
        if stops_after(stops, went, self.network().last()) {
            return Some(Ran::Stopped);
        }
        None
    }

    /// `Some` where the latest entry is of a chosen kind: a run ends there. It is of use after a
    /// step alone.
    #[inline(always)]
    pub fn stopped(&self, stops: &Stops) -> Option<Ran>
        ensures { result ≡ stopped_at stops.now (session_of B.slots self.now).net.last }
    {
        if stops_at(stops, self.network().last()) {
            return Some(Ran::Stopped);
        }
        None
    }
}
