//! The two lines of the form `bound`: how many packets are under way at the end of a case, and so
//! many whole rounds that drain them.

ghost use Rattle.std.specs.Prelude.{◌≡◌, ◌≤◌, List, [], ◌∷◌, false, length};
ghost use Rattle.hmc_entries.specs.declared.entry.Entry.{Entry};
ghost use Rattle.hmc_journal.specs.Lawful.{has_passed};
ghost use Rattle.hmc_journal.specs.Setup.{Setup};
ghost use Rattle.hmc_net.specs.NetState.{net_of};
ghost use Rattle.hmc_net.specs.Stands.{StandsFor};
ghost use Rattle.hmc_replay.specs.BoundLines.{bound_lines};
ghost use Rattle.hmc_replay.specs.Output.{number_line, Writes};

use crate::output::{number_line, write_line};
use hmc_codes::LineText;
use hmc_net::Network;
use hmc_outside::{Failed, Sink};
use hmc_units::Workbench;

// Writes the line of a word, of at most 16 bytes, and a number.
fn write_number<O: Sink>(sink: &mut O, word: &str, number: u64) -> Result<(), Failed>
    requires { length word.now ≤ 16 }
    ensures { Writes result (O.shows sink.old) (O.shows sink.new)
        (number_line word.now number ∷ []) }
{
    let mut text = LineText::new();
    number_line(&mut text, word, number);
    write_line(sink, text.as_str())
}

/// Writes both lines of a network in which no landing passed.
pub fn write_bound<O: Sink, B: Workbench>(sink: &mut O, network: &Network<B>) -> Result<(), Failed>
    ensures { (setup : Setup) (past : List Entry) →
        StandsFor (net_of B.slots network.now) setup past → has_passed past ≡ false →
        Writes result (O.shows sink.old) (O.shows sink.new) (bound_lines setup.topology past) }
{
    write_number(sink, "underway", u64::from(network.under_way()))?;
    write_number(sink, "bound", network.drain_bound())
}
