//! What a handle holds.

ghost use Rattle.std.specs.Prelude.{◌≡◌};
ghost use Rattle.hmc_c.specs.Kept.{session_in};

use crate::kept::Kept;
use hmc_net::Network;
use hmc_session::Laid;
use hmc_units::{Shipped, Slots};

/// What an open handle holds: a session, with a tape or without, and the steps that are laid down.
#[derive(Drop)]
pub struct Held {
    pub(crate) kept: Kept,
    pub(crate) laid: Laid,
}

impl Held {
    /// The network of its session.
    pub(crate) fn network(&self) -> &Network<Slots<Shipped>>
        ensures { result.now ≡ (session_in self.now.kept).network }
    {
        self.kept.session().network()
    }
}
