//! What calls return.

ghost use Rattle.std.specs.Prelude.{◌≡◌};
ghost use Rattle.hmc_c.specs.Laying.{next_status, ran_status};
ghost use Rattle.hmc_c.specs.Status.{taken_status, refused_status, asked_status};
ghost use Rattle.hmc_c.specs.Words.{line_status};

use hmc_net::Went;
use hmc_session::{LineNotAsked, NotAsked, NotTaken, Ran};

/// It is done.
pub(crate) const OK: u8 = 0;
/// Out of memory: nothing changed.
pub(crate) const MEMORY: u8 = 1;
/// The text is no case, request or schedule, or the numbers no request or packet: nothing changed.
pub(crate) const BAD: u8 = 6;
/// The step was taken, and its landing passed: none may follow.
pub(crate) const PASSED: u8 = 7;
/// There is no such step, or part: nothing changed.
pub(crate) const NONE: u8 = 8;
/// The handle is closed.
pub(crate) const CLOSED: u8 = 9;
/// The step is a give of a host that has given all and may be asked for more: it isn't taken.
pub(crate) const WAITS: u8 = 10;
/// No step may be taken any more.
pub(crate) const OVER: u8 = 11;
/// There is no such host.
pub(crate) const NO_HOST: u8 = 12;
/// There is no such cube.
pub(crate) const NO_CUBE: u8 = 13;
/// The host is finished.
pub(crate) const FINISHED: u8 = 14;
/// The host was asked for as many requests as it may be.
pub(crate) const FULL: u8 = 15;

/// The flits are not as many as their first one says.
pub(crate) const BAD_LENGTH: u8 = 16;
/// No command of this length has this code.
pub(crate) const BAD_COMMAND: u8 = 17;
/// A bit that must be 0 isn't.
pub(crate) const BAD_RESERVED: u8 = 18;
/// The check is wrong.
pub(crate) const BAD_CRC: u8 = 19;

/// The report is not that of the case.
pub(crate) const UNLAWFUL: u8 = 20;

/// The status of a step that was taken.
pub(crate) fn taken_status(went: Went) -> u8
    ensures { result ≡ taken_status went }
{
    match went {
        Went::Passed => PASSED,
        Went::Done | Went::Idle(_) => OK,
    }
}

/// The status of a step that was refused.
pub(crate) fn refused_status(refusal: NotTaken) -> u8
    ensures { result ≡ refused_status refusal }
{
    match refusal {
        NotTaken::Unknown => NONE,
        NotTaken::Over => OVER,
        NotTaken::Waits => WAITS,
    }
}

/// The status of a request that was refused.
pub(crate) fn asked_status(refusal: NotAsked) -> u8
    ensures { result ≡ asked_status refusal }
{
    match refusal {
        NotAsked::Memory => MEMORY,
        NotAsked::NoHost => NO_HOST,
        NotAsked::NoCube => NO_CUBE,
        NotAsked::Finished => FINISHED,
        NotAsked::Full => FULL,
    }
}

/// The status of a text that is refused.
pub(crate) fn line_status(refusal: LineNotAsked) -> u8
    ensures { result ≡ line_status refusal }
{
    match refusal {
        LineNotAsked::Fault { .. } | LineNotAsked::NotOne => BAD,
        LineNotAsked::Refused(refusal) => asked_status(refusal),
    }
}

/// What became of the next step.
pub(crate) fn next_status(next: Result<Option<Went>, NotTaken>) -> u8
    ensures { result ≡ next_status next }
{
    match next {
        Ok(Some(went)) => taken_status(went),
        Ok(None) => NONE,
        Err(refusal) => refused_status(refusal),
    }
}

/// The status of a run that ended so.
pub(crate) fn ran_status(ran: Ran) -> u8
    ensures { result ≡ ran_status ran }
{
    match ran {
        Ran::Stopped | Ran::Tried => OK,
        Ran::Ended | Ran::Unknown => NONE,
        Ran::Over => OVER,
    }
}
