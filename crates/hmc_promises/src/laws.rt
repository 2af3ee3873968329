//! Laws of journals. Each is the contract of a function that does nothing.

ghost use Rattle.std.specs.Prelude.{◌≡◌, ◌↔◌, ◌++◌, true, List};
ghost use Rattle.hmc_entries.specs.declared.entry.Entry.{Entry};
ghost use Rattle.hmc_journal.specs.Drained.{IsDrained, is_drained};
ghost use Rattle.hmc_journal.specs.Lawful.{Lawful, journal_of};
ghost use Rattle.hmc_journal.specs.Network.{IsNetwork};
ghost use Rattle.hmc_journal.specs.Setup.{Setup};
ghost use Rattle.hmc_promises.specs.StepGuarantees.{StepGuarantees};

/// A lawful journal of a network keeps what is promised of it after each step.
pub fn lawful_guarantees()
    ensures { (setup : Setup) (journal : List Entry) → IsNetwork setup → Lawful setup journal →
        StepGuarantees setup journal }
{}

/// So does the journal of a case, at every moment, whether it is run or not.
pub fn journal_keeps_guarantees()
    ensures { (setup : Setup) (later past : List Entry) → IsNetwork setup →
        journal_of setup ≡ later ++ past → StepGuarantees setup past }
{}

/// No packet is on its way exactly where the test of the queues and the directions that there are
/// says so.
pub fn drained_is_tested()
    ensures { (setup : Setup) (past : List Entry) → IsNetwork setup → Lawful setup past →
        (is_drained setup.topology past ≡ true) ↔ IsDrained setup.topology past }
{}
