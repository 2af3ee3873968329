//! Laws of journals. Each is the contract of a function that does nothing.

ghost use Rattle.std.specs.Prelude.{◌≡◌, ◌++◌, ◌∷◌, true, List, length};
ghost use Rattle.hmc_entries.specs.declared.entry.Entry.{Entry};
ghost use Rattle.hmc_journal.specs.Delivered.{IsScripted, LinksInOrder};
ghost use Rattle.hmc_journal.specs.Drained.{IsDrained, is_drained};
ghost use Rattle.hmc_journal.specs.Network.{IsNetwork};
ghost use Rattle.hmc_journal.specs.QueueInvariant.{QueueInvariant};
ghost use Rattle.hmc_journal.specs.Lawful.{Lawful, IsWhole, journal_of};
ghost use Rattle.hmc_journal.specs.Serial.{IsSerial};
ghost use Rattle.hmc_journal.specs.Setup.{Setup};
ghost use Rattle.hmc_journal.specs.StepView.{opening_of};

/// Two lawful journals of one case and of one length are equal. A whole one, which has an entry
/// for each step or ends at a landing that passed, is `journal_of` the case. A lawful journal was
/// lawful at every earlier moment.
pub fn one_journal()
    ensures same { (setup : Setup) (past others : List Entry) → Lawful setup past →
        Lawful setup others → length past ≡ length others → past ≡ others }
    ensures whole { (setup : Setup) (journal : List Entry) → IsWhole setup journal →
        journal ≡ journal_of setup }
    ensures earlier { (setup : Setup) (later past : List Entry) → Lawful setup (later ++ past) →
        Lawful setup past }
{}

/// A lawful journal that isn't whole is a prefix of one with one entry more. So a case has one
/// whole journal with these logic units, and by `one_journal` no other.
pub fn lawful_goes_on()
    ensures more { (setup : Setup) (past : List Entry) → Lawful setup past →
        (IsWhole setup past → ⊥) → (entry : Entry) × Lawful setup (entry ∷ past) }
    ensures one { (setup : Setup) → IsWhole setup (journal_of setup) }
{}

/// In a lawful journal the requests that each host gave are a prefix of those that the script has
/// for it.
pub fn lawful_is_scripted()
    ensures { (setup : Setup) (past : List Entry) → Lawful setup past →
        IsScripted setup.script past }
{}

/// The executions of a lawful journal, run in order on a plain machine, give every answer.
pub fn lawful_is_serial()
    ensures { (setup : Setup) (past : List Entry) → Lawful setup past →
        IsSerial (opening_of setup) past }
{}

/// After a lawful journal the queues hold packets on their way to a cube or a host that is there.
/// Of each direction of a link the entries are such as its users keep to, and its output queue and
/// its buffer hold what these entries say.
pub fn lawful_keeps_queues()
    ensures { (setup : Setup) (past : List Entry) → IsNetwork setup → Lawful setup past →
        QueueInvariant setup past }
{}

/// In a lawful journal each direction is a list, first in and first out.
pub fn lawful_keeps_links_in_order()
    ensures { (setup : Setup) (past : List Entry) → IsNetwork setup → Lawful setup past →
        LinksInOrder setup past }
{}

/// Where the test of a lawful journal's queues says so, no packet is on its way.
pub fn lawful_is_drained()
    ensures { (setup : Setup) (past : List Entry) → IsNetwork setup → Lawful setup past →
        is_drained setup.topology past ≡ true → IsDrained setup.topology past }
{}
