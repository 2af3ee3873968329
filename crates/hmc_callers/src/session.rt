//! A caller of `hmc_session`.

ghost use Rattle.std.specs.Prelude.{◌≡◌, [], List, Ok, IfOk, OnOk};
ghost use Rattle.hmc_entries.specs.declared.entry.Entry.{Entry};
ghost use Rattle.hmc_growing.specs.Growing.{with_item};
ghost use Rattle.hmc_journal.specs.Setup.{Setup};
ghost use Rattle.hmc_script.specs.Items.{ItemFields};
ghost use Rattle.hmc_session.specs.Asking.{item_in};
ghost use Rattle.hmc_session.specs.Running.{RunsTo};
ghost use Rattle.hmc_session.specs.Session.{session_of, StandsIn};
ghost use Rattle.hmc_session.specs.Showing.{latest_line};

use hmc_codes::LineText;
use hmc_session::{Laid, LineNotAsked, Ran, Session, Stops};
use hmc_units::Workbench;
use std::alloc::Global;

/// Asks for the request of a line, and takes laid steps up to an entry of a chosen kind, as the
/// answer that a host takes; at most 1,000,000 steps. Then it writes the line of the latest entry
/// into an empty text.
pub fn ask_and_run<B: Workbench>(
    alloc: Global,
    session: &mut Session<B>,
    line: &str,
    laid: &mut Laid,
    stops: &Stops,
    into: &mut LineText,
) -> Result<Ran, LineNotAsked>
    requires empty { into.old.bytes ≡ [] }

    // The session represents the case with the request of the line and with the steps that were
    // taken, and the journal with their entries.
    ensures stands { (setup : Setup) (past : List Entry) →
        StandsIn (session_of B.slots session.old) setup past →
        IfOk result (λ ran. (item : ItemFields) × (item_in session.old.plan line.now ≡ Ok item)
        × RunsTo ran (session_of B.slots session.new) (with_item setup item) past
        laid.old laid.new stops.now 1000000) }
    ensures line { (setup : Setup) (past : List Entry) →
        StandsIn (session_of B.slots session.new) setup past →
        OnOk result (into.new.bytes ≡ latest_line past) }
{
    session.ask_line(alloc, line)?;
    let ran = session.run(laid, 1_000_000, stops);
    session.line(into);
    Ok(ran)
}
