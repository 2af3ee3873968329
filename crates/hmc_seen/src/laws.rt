//! Laws of what hosts see. Each is the contract of a function that does nothing.

ghost use Rattle.std.specs.Prelude.{◌≡◌, ◌++◌, List};
ghost use Rattle.hmc_report.specs.Final.{FinalValues, ending_lines, final_lines};
ghost use Rattle.hmc_serial.specs.Machine.{State};
ghost use Rattle.hmc_entries.specs.declared.entry.Entry.{Entry};
ghost use Rattle.hmc_journal.specs.Final.{values_of};
ghost use Rattle.hmc_journal.specs.Lawful.{Lawful};
ghost use Rattle.hmc_journal.specs.Network.{IsNetwork};
ghost use Rattle.hmc_journal.specs.Setup.{Setup, Topology};
ghost use Rattle.hmc_journal.specs.StepView.{opening_of};
ghost use Rattle.hmc_seen.specs.End.{end_of};
ghost use Rattle.hmc_seen.specs.Explained.{Explains, IsExplained, IsExplainedBy, IsExplainedTo};
ghost use Rattle.hmc_seen.specs.Seen.{seen_of, served_of};
ghost use Rattle.hmc_seen.specs.Stepwise.{IsStepwise};

/// What hosts see of a run is explained, whatever the network's links, its schedule and its masks
/// are: by the run's own executions, where they stand in its journal.
pub fn runs_are_explained()
    ensures explained { (setup : Setup) (journal : List Entry) → IsNetwork setup →
        Lawful setup journal → IsExplained setup.topology (opening_of setup) (seen_of journal) }
    ensures own { (setup : Setup) (journal : List Entry) → IsNetwork setup →
        Lawful setup journal →
        IsExplainedBy setup.topology (opening_of setup) (seen_of journal) (served_of journal) }
{}

/// So is what they see up to the end of the run, with the memory and the registers that it leaves.
/// These are lines of its report: the final lines are those of the end, and others after them.
pub fn ends_are_explained()
    ensures explained { (setup : Setup) (journal : List Entry) → IsNetwork setup →
        Lawful setup journal → IsExplainedTo setup.topology (opening_of setup) (seen_of journal)
        (end_of (values_of setup journal)) }
    ensures lines { (values : FinalValues) → final_lines values
        ≡ (end_of values).memory ++ (end_of values).registers ++ ending_lines values }
{}

/// A log that begins an explained one is explained: `later` is what comes after it.
pub fn shorter_logs_are_explained()
    ensures { (topology : Topology) (opening : State) (later log : List Entry) →
        IsExplained topology opening (later ++ log) → IsExplained topology opening log }
{}

/// What an explanation keeps at each moment it keeps entry by entry: each execution is of the
/// request that its host gave next to its unit and under its tag, and each answer taken is the next
/// one under its tag.
pub fn explanations_go_by_steps()
    ensures steps { (topology : Topology) (journal : List Entry) →
        ((later past : List Entry) → journal ≡ later ++ past → Explains topology past) →
        IsStepwise topology journal }
    ensures moments { (topology : Topology) (journal later past : List Entry) →
        IsStepwise topology journal → journal ≡ later ++ past → Explains topology past }
{}
