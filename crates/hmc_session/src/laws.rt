//! What a session is: the run of a case. These are contracts of functions that do nothing.

ghost use Rattle.std.specs.Prelude.{◌≡◌, ℕ, List, Some};
ghost use Rattle.std.specs.List.{All};
ghost use Rattle.hmc_schedule.specs.Plan.{IsStepOf};
ghost use Rattle.hmc_schedule.specs.declared.step.Step.{Step};
ghost use Rattle.hmc_entries.specs.declared.entry.Entry.{Entry};
ghost use Rattle.hmc_journal.specs.Guarantees.{Guarantees};
ghost use Rattle.hmc_journal.specs.Lawful.{journal_of};
ghost use Rattle.hmc_journal.specs.Setup.{Setup};
ghost use Rattle.hmc_session.specs.Refusals.{step_refusal};
ghost use Rattle.hmc_session.specs.Running.{RunsTo};
ghost use Rattle.hmc_session.specs.Session.{SessionFields, StandsIn};
ghost use Rattle.hmc_session.specs.Stops.{no_stops};
ghost use Rattle.hmc_session.specs.declared.refusal.NotTaken.TheVariants as refusals;
ghost use Rattle.hmc_session.specs.declared.run.Ran.TheVariants as rans;
ghost use Rattle.hmc_session.specs.declared.stops.Stops.{Stops};

/// At every moment the journal of a session is the one journal of its case: that of the requests
/// asked so far and the steps taken so far. All that is guaranteed of runs holds of it.
pub fn a_session_is_a_run()
    ensures run { (session : SessionFields) (setup : Setup) (past : List Entry) →
        StandsIn session setup past → past ≡ journal_of setup }
    ensures guarantees { (session : SessionFields) (setup : Setup) (past : List Entry) →
        StandsIn session setup past → Guarantees setup past }
{}

/// A run with `NO_STOPS` never ends since an entry is of a chosen kind.
pub fn a_run_without_stops_goes_on()
    ensures { (now : SessionFields) (setup : Setup) (past : List Entry) (laid left : List Step)
        (most : ℕ) → RunsTo rans.Stopped now setup past laid left no_stops most → ⊥ }
{}

/// Steps that are laid down for a session are known to it: `lay` returns steps of its plan, no step
/// of its plan is refused as `Unknown`, and a run of such steps doesn't end with that.
pub fn a_laid_step_is_known()
    ensures step { (session : SessionFields) (step : Step) → IsStepOf session.plan step →
        step_refusal session step ≡ Some refusals.Unknown → ⊥ }
    ensures run { (now : SessionFields) (setup : Setup) (past : List Entry)
        (laid left : List Step) (stops : Stops) (most : ℕ) → All (IsStepOf now.plan) laid →
        RunsTo rans.Unknown now setup past laid left stops most → ⊥ }
{}
