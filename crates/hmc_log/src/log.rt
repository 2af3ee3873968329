//! Logs.

ghost use Rattle.std.specs.Prelude.{◌≡◌, ◌<◌, length, slice_get, Some, option_map};

use crate::End;
use hmc_entries::Entry;
use std::marker::Model;

/// What hosts saw, in the order of time: requests given, answers taken and logic units retired; and
/// what was there at the end, if the log has one.
#[derive(Drop)]
pub struct Log {
    pub(crate) entries: Vec<Entry>,
    pub(crate) ending: Option<End>,
}

impl Model for Log {
    ghost use Rattle.std.specs.Option.{option_map};
    ghost use Rattle.hmc_log.specs.Log.{LogFields};

    ghost Value = { LogFields };

    ghost view = { λ l. record { entries = l.entries.items; ending = l.ending } };
}

impl Log {
    /// The entries, the oldest first: `Gave`, `Took` and `Retired`.
    pub fn entries(&self) -> &[Entry]
        ensures { result.now ≡ self.now.entries }
    {
        &self.entries
    }

    /// The end, if the log has one.
    pub fn ending(&self) -> Option<&End>
        ensures { option_map (λ e. e.now) result ≡ self.now.ending }
    {
        self.ending.as_ref()
    }
}
