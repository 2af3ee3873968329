//! The flits that are the same in every link: that of a NULL, and the training flit.

ghost use Rattle.std.specs.Prelude.{◌≡◌};
ghost use Rattle.hmc_codes.specs.Flit.{zero_flit};
ghost use Rattle.hmc_packet.specs.Spelling.{training_flit};

use hmc_codes::{Flit, ZERO_FLIT};

/// The flit that trains a receiver. No packet begins with it.
pub const TRAINING_FLIT: Flit = [0x5a; 16];

/// Does nothing. Its contract is which flits the two constants are.
#[tactic(auto, unfolding(hmc_codes::specs::Flit::zero_flit, crate::specs::Spelling::training_flit))]
pub fn constant_flits()
    ensures zero { ZERO_FLIT ≡ zero_flit }
    ensures training { TRAINING_FLIT ≡ training_flit }
{}
