//! Laws of journals. Each is the contract of a function that does nothing.

ghost use Rattle.std.specs.Prelude.{◌++◌, List};
ghost use Rattle.hmc_entries.specs.declared.entry.Entry.{Entry};
ghost use Rattle.hmc_journal.specs.Delivered.{DeliveredInOrder, AllServed};
ghost use Rattle.hmc_journal.specs.Drained.{IsDrained};
ghost use Rattle.hmc_journal.specs.Guarantees.{Guarantees};
ghost use Rattle.hmc_journal.specs.Network.{IsNetwork};
ghost use Rattle.hmc_journal.specs.QueueInvariant.{AnswersAwaited};
ghost use Rattle.hmc_journal.specs.Lawful.{Lawful, journal_of};
ghost use Rattle.hmc_journal.specs.Serial.{IsSerial};
ghost use Rattle.hmc_journal.specs.Setup.{Setup};
ghost use Rattle.hmc_journal.specs.StepView.{opening_of};

/// After a lawful journal the answers that wait at a host are those that it awaits: their tags are
/// out.
pub fn lawful_awaits_answers()
    ensures { (setup : Setup) (past : List Entry) → IsNetwork setup → Lawful setup past →
        AnswersAwaited setup past }
{}

/// A lawful journal delivers requests and answers in order, over every hop, and all of them once no
/// packet is on its way.
pub fn lawful_delivers()
    ensures delivered { (setup : Setup) (past : List Entry) → IsNetwork setup →
        Lawful setup past → DeliveredInOrder setup past }
    ensures served { (setup : Setup) (past : List Entry) → IsNetwork setup → Lawful setup past →
        IsDrained setup.topology past → AllServed setup.topology past }
{}

/// At each moment of a lawful journal the executions so far, run in order on a plain machine, give
/// every answer, and requests and answers are delivered in order over every hop.
pub fn lawful_is_served()
    ensures serial { (setup : Setup) (later past : List Entry) → Lawful setup (later ++ past) →
        IsSerial (opening_of setup) past }
    ensures delivered { (setup : Setup) (later past : List Entry) → IsNetwork setup →
        Lawful setup (later ++ past) → DeliveredInOrder setup past }
{}

/// The guarantees of the journal of a network's case. They hold whether it is run or not.
pub fn journal_guarantees()
    ensures { (setup : Setup) → IsNetwork setup → Guarantees setup (journal_of setup) }
{}
