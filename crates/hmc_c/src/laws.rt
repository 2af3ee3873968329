//! What the clauses say together. These are contracts of functions that do nothing.

ghost use Rattle.std.specs.Prelude.{◌≡◌, ◌^◌, ℕ, [], List, Option};
ghost use Rattle.hmc_entries.specs.declared.entry.Entry.{Entry};
ghost use Rattle.hmc_journal.specs.Setup.{Setup};
ghost use Rattle.hmc_session.specs.Stops.{is_stop};
ghost use Rattle.hmc_session.specs.declared.stops.Stops.{Stops};
ghost use Rattle.hmc_c.specs.Entries.{shown_entry};
ghost use Rattle.hmc_c.specs.Handles.{HandleKeepsParts, KnowsLaid, laid_in};
ghost use Rattle.hmc_c.specs.Laying.{IsNexted, IsRun, has_bit, stops_of};
ghost use Rattle.hmc_c.specs.Status.{none};
ghost use Rattle.hmc_c.specs.declared.held.Held.{Held};

/// Steps that are laid down name parts of the network: those of the case that a handle is opened on
/// do, and those that `hmc_lay` lays down, and what `hmc_next` and `hmc_run` leave of them. So
/// these two return 8 only where none is left.
pub fn a_laid_step_is_known()
    ensures next { (old new : Option Held) (setup : Setup) (past : List Entry) → KnowsLaid old →
        IsNexted none old new setup past → laid_in old ≡ [] }
    ensures after_next { (status : ℕ) (old new : Option Held) (setup : Setup)
        (past : List Entry) → KnowsLaid old → HandleKeepsParts old new →
        IsNexted status old new setup past → KnowsLaid new }
    ensures run { (old new : Option Held) (setup : Setup) (past : List Entry) (stops : Stops)
        (most steps : ℕ) → KnowsLaid old → HandleKeepsParts old new →
        IsRun none old new setup past stops most steps → laid_in new ≡ [] }
    ensures after_run { (status : ℕ) (old new : Option Held) (setup : Setup)
        (past : List Entry) (stops : Stops) (most steps : ℕ) → KnowsLaid old →
        HandleKeepsParts old new → IsRun status old new setup past stops most steps →
        KnowsLaid new }
{}

/// `hmc_run` stops at an entry exactly where the bit of the kind that C sees is set: bit k stands
/// for the entries whose `kind` is k, and for no other.
pub fn a_bit_stands_for_a_kind()
    ensures { (number : ℕ) (entry : Entry) → is_stop (stops_of number) entry
        ≡ has_bit number (2 ^ (shown_entry entry).kind) }
{}
