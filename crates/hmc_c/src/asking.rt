//! Requests in the words of a script.

ghost use Rattle.std.specs.Prelude.{◌≡◌, List, None};
ghost use Rattle.hmc_entries.specs.declared.entry.Entry.{Entry};
ghost use Rattle.hmc_journal.specs.Setup.{Setup};
ghost use Rattle.hmc_c.specs.Handles.{HandleKeepsParts, HandleStands, Stands, laid_in};
ghost use Rattle.hmc_c.specs.Kept.{KeepsParts};
ghost use Rattle.hmc_c.specs.Status.{closed};
ghost use Rattle.hmc_c.specs.Words.{BytesAsked, IsLineAsked};

use crate::handle::Handle;
use crate::held::Held;
use crate::status::BAD;
use std::alloc::Global;

// Asks for the one request that these bytes state, which may be no text.
fn ask_bytes(held: &mut Held, alloc: Global, bytes: &[u8]) -> u8
    ensures stands { (setup : Setup) (past : List Entry) → Stands held.old setup past →
        BytesAsked result held.old held.new setup past bytes.now }
    ensures laid { held.new.laid ≡ held.old.laid }
    ensures parts { KeepsParts held.old.kept held.new.kept }
{
    match str::from_utf8(bytes) {
        Ok(text) => held.kept.ask_text(alloc, text),
        Err(_) => BAD,
    }
}

/// Asks a host for the one request that a text states, in the words of a script (docs/script.md).
/// A fence of its host may be on a line before it.
///
/// 0: it is asked. 1: out of memory. 6: the text states no request for the hosts and cubes of the
/// session, or more than one. 9: the handle is closed. 14: the host is finished. 15: it was asked
/// for as many requests as it may be. Where it isn't asked nothing changes.
#[unsafe(no_mangle)]
pub extern "C" fn hmc_ask(alloc: Global, handle: &mut Handle, text: &[u8]) -> u8
    ensures stands { (setup : Setup) (past : List Entry) →
        HandleStands handle.old.value setup past →
        IsLineAsked result handle.old.value handle.new.value setup past text.now }
    ensures laid { laid_in handle.new.value ≡ laid_in handle.old.value }
    ensures closed { handle.old.value ≡ None → result ≡ closed }
    ensures parts { HandleKeepsParts handle.old.value handle.new.value }
{
    with_held!(alloc, handle, |held| ask_bytes(&mut held, alloc, text))
}
