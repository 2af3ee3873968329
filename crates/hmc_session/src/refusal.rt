//! Why a session refuses a call.

ghost use Rattle.std.specs.Prelude.{◌≡◌};

use hmc_codes::Memory;
use hmc_script::ScriptKind;

/// Why a step isn't taken. The first of several causes counts.
#[derive(Clone, Copy)]
pub enum NotTaken {
    /// It names a part that isn't there.
    Unknown,
    /// A landing passed, or `MOST_TAKEN` steps were taken.
    Over,
    /// It is a give of a host that has given all of its requests and may be asked for more.
    Waits,
}

/// Why a host isn't asked for a request. The first of several causes counts.
#[derive(Clone, Copy)]
pub enum NotAsked {
    /// There is no such host.
    NoHost,
    /// There is no such cube.
    NoCube,
    /// The host is finished.
    Finished,
    /// The host was asked for `MOST_ASKED` requests.
    Full,
    /// Out of memory.
    Memory,
}

impl From<Memory> for NotAsked {
    ghost use Rattle.hmc_session.specs.declared.refusal.NotAsked.TheVariants.{Memory};

    ghost from_gives = { λ _ r. r ≡ Memory };

    fn from(_: Memory) -> Self {
        NotAsked::Memory
    }
}

/// Why no host is asked for the request of a text. The first of several causes counts.
#[derive(Clone, Copy)]
pub enum LineNotAsked {
    /// The text is no script for the hosts and cubes of the session: its first fault, by its line,
    /// counted from 1, and what is wrong there.
    Fault { line: u32, kind: ScriptKind },
    /// It has no request, or more than one.
    NotOne,
    /// Its host isn't asked.
    Refused(NotAsked),
}
