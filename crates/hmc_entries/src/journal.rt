//! The journal.

ghost use Rattle.std.specs.Prelude.{◌≡◌, ◌<◌, ◌+◌, ◌^◌, [], ◌∷◌, ◌++◌, reverse, length, IfOk};
ghost use Rattle.std.specs.Vec.{vec_capacity};

use crate::Entry;
use hmc_codes::Memory;
use std::alloc::Global;
use std::marker::Model;

/// The entries of a run so far, with room reserved for those to come. Contracts see a list with the
/// newest entry first, and the number of entries that there is room for.
#[derive(Drop)]
pub struct Journal {
    entries: Vec<Entry>,
    most: u32,
}

impl Model for Journal {
    ghost use Rattle.std.specs.Prelude.{reverse, length};
    ghost use Rattle.std.specs.Vec.{vec_capacity};
    ghost use Rattle.hmc_entries.specs.Journal.{JournalFields, IsJournal};

    ghost Value = { JournalFields };

    ghost view = { λ j. record { past = reverse j.entries.items; most = j.most } };

    ghost invariant = { λ j. IsJournal (length j.entries.items) j.most (vec_capacity j.entries) };
}

// Generic: the checker stops at a push of an entry.
fn append<T: Copy>(items: &mut Vec<T>, item: T)
    requires { length items.old.items < vec_capacity items.old }
    ensures items { items.new.items ≡ items.old.items ++ item ∷ [] }
    ensures capacity { vec_capacity items.new ≡ vec_capacity items.old }
{
    items.push_reserved(item);
}

impl Journal {
    ghost use Rattle.hmc_entries.specs.Journal.{JournalFields};

    /// An empty journal with room for so many entries.
    pub fn new(alloc: Global, most: u32) -> Result<Self, Memory>
        ensures { IfOk result (λ journal. journal ≡ record { past = []; most = most }) }
    {
        let entries = Vec::with_capacity(alloc, most as usize)?;
        Ok(Journal { entries, most })
    }

    /// Appends the entry of the latest step.
    pub fn note(&mut self, entry: Entry)
        requires { length self.old.past < self.old.most }
        ensures past { self.new.past ≡ entry ∷ self.old.past }
        ensures most { self.new.most ≡ self.old.most }
    {
        append(&mut self.entries, entry);
    }

    /// How many entries there are.
    pub fn len(&self) -> u32
        ensures { result ≡ length self.now.past }
    {
        self.entries.len() as u32
    }

    /// The entries in the order in which they came.
    pub fn entries(&self) -> &[Entry]
        ensures entries { reverse result.now ≡ self.now.past }
        ensures few { length result.now < 2 ^ 32 }
    {
        &self.entries
    }
}
