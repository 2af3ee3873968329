//! What an open handle shows: parts by number, and texts.

ghost use Rattle.std.specs.Prelude.{ℕ, Bool, List};
ghost use Rattle.hmc_entries.specs.declared.entry.Entry.{Entry};
ghost use Rattle.hmc_journal.specs.Setup.{Setup};
ghost use Rattle.hmc_session.specs.Session.{StandsIn};
ghost use Rattle.hmc_c.specs.Handles.{Stands, shown};
ghost use Rattle.hmc_c.specs.Kept.{has_tape};
ghost use Rattle.hmc_c.specs.Shows.{ShowsText};
ghost use Rattle.hmc_c.specs.Values.{LeftShown};

use crate::handle::Handle;
use crate::held::Held;
use crate::status::{NONE, OK, OVER};
use std::alloc::Global;

/// Shows what was found of a part, if it is there, and no landing passed.
pub(crate) fn show<X: Drop>(held: &Held, found: Option<X>, out: &mut X) -> u8
    ensures { LeftShown result (shown held.now).passed found out.old out.new }
{
    if held.kept.session().has_passed() {
        return OVER;
    }
    match found {
        Some(found) => {
            *out = found;
            OK
        }
        None => NONE,
    }
}

/// A text that a session shows.
pub(crate) trait Text {
    /// What is written of it, with a tape or without, and how many bytes are said to be.
    ghost shows: { Self → (tape : Bool) → Setup → List Entry → (status written : ℕ) →
        (old new : List ℕ) → Type 0 };

    /// Writes it to the front of a room for it.
    fn write(&self, held: &Held, out: &mut [u8], written: &mut usize) -> u8
        ensures { (setup : Setup) (past : List Entry) → Stands held.now setup past →
            StandsIn (shown held.now) setup past →
            shows self.now (has_tape held.now.kept) setup past result written.new
            out.old out.new };
}

/// Writes a text of what a handle has.
#[tactic(auto, using(crate::proofs::KeptLemmas::stands_in))]
pub(crate) fn write<T: Text>(
    alloc: Global,
    handle: &mut Handle,
    text: &T,
    out: &mut [u8],
    written: &mut usize,
) -> u8
    ensures { ShowsText (T.shows text.now) result written.new handle.old.value handle.new.value
        out.old out.new }
{
    *written = 0;
    with_held!(alloc, handle, |held| text.write(&held, out, written))
}
