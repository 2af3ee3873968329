//! A caller of `hmc_net`.

ghost use Rattle.std.specs.Prelude.{◌≡◌, ◌∷◌, List};
ghost use Rattle.hmc_entries.specs.declared.entry.Entry.{Entry};
ghost use Rattle.hmc_journal.specs.Next.{next};
ghost use Rattle.hmc_journal.specs.Setup.{Setup};
ghost use Rattle.hmc_net.specs.NetState.{net_of};
ghost use Rattle.hmc_net.specs.Stands.{IsNext, StandsFor};

use hmc_entries::Entry;
use hmc_net::Network;
use hmc_schedule::Step;
use hmc_units::Workbench;

/// Takes the next step of a case, and returns the entry that it made: the one that the definitions
/// yield, given the entries before it. The network then represents the case with that entry too.
pub fn entry_of<B: Workbench>(network: &mut Network<B>, step: &Step) -> Entry
    requires { (setup : Setup) × (past : List Entry) ×
        IsNext (net_of B.slots network.old) setup past step.now }
    ensures entry { (setup : Setup) (past : List Entry) →
        IsNext (net_of B.slots network.old) setup past step.now →
        result ≡ next setup past step.now }
    ensures stands { (setup : Setup) (past : List Entry) →
        IsNext (net_of B.slots network.old) setup past step.now →
        StandsFor (net_of B.slots network.new) setup (next setup past step.now ∷ past) }
{
    let _ = network.step(step);
    network.last().entry()
}
