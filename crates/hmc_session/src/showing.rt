//! What a session shows: its latest entry, the line of it, and the final lines.

ghost use Rattle.std.specs.Prelude.{◌≡◌, ◌++◌, [], List, false, true, IsOk, OnErr, OnOk, option_map, string_bytes};
ghost use Rattle.hmc_entries.specs.declared.entry.Entry.{Entry};
ghost use Rattle.hmc_journal.specs.Final.{values_of};
ghost use Rattle.hmc_journal.specs.Setup.{Setup};
ghost use Rattle.hmc_report.specs.Final.{AppendsSome, final_text, lines_from};
ghost use Rattle.hmc_session.specs.Session.{session_of, StandsIn};
ghost use Rattle.hmc_session.specs.Showing.{latest, latest_line};

use crate::Session;
use hmc_codes::{LineText, Memory};
use hmc_entries::LastEntry;
use hmc_report::{Part, finish};
use hmc_units::Workbench;
use std::alloc::Global;

impl<B: Workbench> Session<B> {
    /// The entry of the latest step, if one was taken.
    pub fn last(&self) -> Option<&LastEntry>
        ensures { (setup : Setup) (past : List Entry) →
            StandsIn (session_of B.slots self.now) setup past →
            option_map (λ entry. entry.now) result ≡ latest past }
    {
        if self.taken() == 0 {
            return None;
        }
        Some(self.network().last())
    }

    /// Writes the line of the latest entry into an empty text, with a line feed at its end. Before
    /// the first step it writes nothing.
    pub fn line(&self, into: &mut LineText)
        requires empty { into.old.bytes ≡ [] }
        ensures { (setup : Setup) (past : List Entry) →
            StandsIn (session_of B.slots self.now) setup past →
            into.new.bytes ≡ latest_line past }
    {
        if self.taken() == 0 {
            return;
        }
        self.network().last().line(into);
    }

    /// Appends the final lines that a report of the steps so far has, from this part on. After a
    /// landing that passed a report has none, and nothing is appended. `Memory` if out of memory:
    /// then the first of the lines have been appended, each of them whole.
    pub fn final_lines(&self, alloc: Global, from: Part, into: &mut String) -> Result<(), Memory>
        ensures text { (setup : Setup) (past : List Entry) →
            StandsIn (session_of B.slots self.now) setup past → self.now.passed ≡ false →
            OnOk result (string_bytes into.new
            ≡ string_bytes into.old ++ final_text from (values_of setup past)) }
        ensures some { (setup : Setup) (past : List Entry) →
            StandsIn (session_of B.slots self.now) setup past → self.now.passed ≡ false →
            OnErr result (AppendsSome (string_bytes into.old) (string_bytes into.new)
            (lines_from from (values_of setup past))) }
        ensures nothing { self.now.passed ≡ true →
            string_bytes into.new ≡ string_bytes into.old }
        ensures passed { self.now.passed ≡ true → IsOk result }
    {
        if self.has_passed() {
            return Ok(());
        }
        let network = self.network();
        network.shows_journal();
        finish(alloc, network, from, into)
    }
}
