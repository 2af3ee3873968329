//! Whether a packet that is still gathered may go on, and its pipe.

ghost use Rattle.std.specs.Prelude.{◌≡◌, ◌<◌, ◌≤◌, ◌&&◌, not, [], length, slice_index_or};
ghost use Rattle.hmc_packet.specs.Parts.{lng_of};
ghost use Rattle.hmc_kept.specs.Throughs.{pipe_fields};

use hmc_codes::{Flit, Profile};
use hmc_packet::lng_of;
use hmc_through::Pipe;

/// A packet may be forwarded if it is not yet, no packet waits at its port, and the other direction
/// is ready for it.
pub fn may_go(forwarded: bool, arrived: bool, ready: bool) -> bool
    ensures { result ≡ ((not forwarded && not arrived) && ready) }
{
    !forwarded && !arrived && ready
}

/// A pipe of the flits that came so far.
pub fn pipe_of(came: &[Flit], profile: Profile) -> Pipe
    requires some { 1 ≤ length came.now }
    requires more { length came.now < lng_of (slice_index_or came.now 0 []) }
    requires few { lng_of (slice_index_or came.now 0 []) ≤ 17 }
    ensures { result ≡ pipe_fields came.now profile }
{
    let mut pipe = Pipe::new(came[0], lng_of(&came[0]), profile);
    for flit in &came[1..] {
        pipe.more(*flit);
    }
    pipe
}
