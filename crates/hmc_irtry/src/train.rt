//! Training.

ghost use Rattle.std.specs.Prelude.{◌≡◌};
ghost use Rattle.hmc_irtry.specs.Train.{is_training, after_flit, ends_training};

use crate::irtry_of;
use hmc_codes::{Flit, Profile};
use hmc_packet::TRAINING_FLIT;
use std::marker::Model;

/// The flits in a row that train a receiver.
const TRAINING: u8 = 8;

/// A receiver in training. Contracts see the link's profile and how many training flits or IRTRYs
/// came in a row, up to eight.
#[derive(Drop)]
pub struct Train {
    profile: Profile,
    count: u8,
}

impl Model for Train {
    ghost use Rattle.hmc_irtry.specs.Train.{TrainFields, IsTraining};

    ghost Value = { TrainFields };

    ghost view = { λ t. record { profile = t.profile; count = t.count } };

    ghost invariant = { λ t. IsTraining (record { profile = t.profile; count = t.count }) };
}

/// Whether a flit trains a receiver: the training flit, or one that alone reads as an IRTRY.
#[tactic(auto, unfolding(hmc_packet::specs::Landings::is_training, hmc_packet::specs::Spelling::training_flit))]
pub fn is_training(flit: &Flit, profile: Profile) -> bool
    ensures { result ≡ is_training profile flit.now }
{
    flit.as_slice() == TRAINING_FLIT.as_slice() || irtry_of(flit, profile).is_some()
}

impl Train {
    /// A receiver of a link of this profile to which nothing came.
    pub fn new(profile: Profile) -> Self
        ensures { result ≡ record { profile = profile; count = 0 } }
    {
        Train { profile, count: 0 }
    }

    /// Counts a flit: true exactly at the eighth training flit or IRTRY in a row.
    pub fn see(&mut self, flit: &Flit) -> bool
        ensures ends { result ≡ ends_training (is_training self.old.profile flit.now) self.old }
        ensures left { self.new ≡ after_flit (is_training self.old.profile flit.now) self.old }
    {
        if !is_training(flit, self.profile) {
            self.count = 0;
            return false;
        }
        let count = self.count + 1;
        self.count = count.min(TRAINING);
        count == TRAINING
    }
}
