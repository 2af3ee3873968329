//! The copies that a network sends.

ghost use Rattle.std.specs.Prelude.{◌≡◌, ◌∷◌, ℕ, List, Some, None};
ghost use Rattle.hmc_packet.specs.declared.what.What.{What};
ghost use Rattle.hmc_entries.specs.declared.entry.Entry.{Entry};
ghost use Rattle.hmc_entries.specs.declared.entry.Entry.TheVariants.{Sent};
ghost use Rattle.hmc_journal.specs.Lawful.{Lawful};
ghost use Rattle.hmc_journal.specs.Network.{IsNetwork};
ghost use Rattle.hmc_journal.specs.Setup.{Setup};
ghost use Rattle.hmc_forwarded.specs.Filled.{through_on, IsFilled};

/// In a lawful journal the send that completes a packet which is forwarded fills its place with the
/// copy of the flits that came to the pipe of its direction: the first flits as they came, zero
/// ones in place of those that never came, and good exactly where the packet was accepted.
pub fn networks_send_copies()
    ensures { (setup : Setup) (past : List Entry) (d : ℕ) (as_what : What) (flit : List ℕ)
        (at : ℕ) → IsNetwork setup → Lawful setup (Sent d as_what flit ∷ past) →
        through_on setup.topology d past ≡ Some at →
        through_on setup.topology d (Sent d as_what flit ∷ past) ≡ None →
        IsFilled setup.topology d past (Sent d as_what flit ∷ past) }
{}
