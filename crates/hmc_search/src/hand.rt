//! The answer at hand.

ghost use Rattle.std.specs.Prelude.{◌≡◌};
ghost use Rattle.std.specs.List.{position};
ghost use Rattle.hmc_search.specs.Point.{ready_under};

use crate::{Ready, is_ready_under};

/// The place of the first answer for a host and a tag.
pub fn place_at_hand(host: u8, tag: u16, ready: &[Ready]) -> Option<usize>
    ensures { result ≡ position (ready_under host tag) ready.now }
{
    ready
        .iter()
        .position(|ready| is_ready_under(host, tag, ready))
}
