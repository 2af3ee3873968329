//! Laws of what hosts see. Each is the contract of a function that does nothing.

ghost use Rattle.std.specs.Prelude.{List, ◌++◌};
ghost use Rattle.hmc_serial.specs.Machine.{State};
ghost use Rattle.hmc_entries.specs.declared.entry.Entry.{Entry};
ghost use Rattle.hmc_journal.specs.Lawful.{Lawful};
ghost use Rattle.hmc_journal.specs.Network.{IsNetwork};
ghost use Rattle.hmc_journal.specs.Setup.{Setup, Topology};
ghost use Rattle.hmc_journal.specs.StepView.{opening_of};
ghost use Rattle.hmc_seen.specs.Explained.{IsExplained};
ghost use Rattle.hmc_seen.specs.Seen.{seen_of};
ghost use Rattle.hmc_ordered.specs.Ordered.{AsksNoUnits, IsOrdered};

/// What hosts see of a run in which no logic unit is asked is explained by executions that keep
/// each host's order at each cube, whatever the network's links, its schedule and its masks are.
pub fn runs_are_ordered()
    ensures { (setup : Setup) (journal : List Entry) → IsNetwork setup → Lawful setup journal →
        AsksNoUnits journal →
        IsOrdered setup.topology (opening_of setup) (seen_of journal) }
{}

/// A log that begins an ordered one is ordered: `later` is what comes after it. So a log has a
/// least line up to which it can't be, or none.
pub fn earlier_is_ordered()
    ensures { (topology : Topology) (opening : State) (later log : List Entry) →
        IsOrdered topology opening (later ++ log) → IsOrdered topology opening log }
{}

/// An ordered log is explained, and would be over each other topology: where its host's requests to
/// a cube are in order, those to each unit are, whichever requests share a unit.
pub fn ordered_is_explained()
    ensures { (topology other : Topology) (opening : State) (log : List Entry) →
        IsOrdered topology opening log → IsExplained other opening log }
{}
