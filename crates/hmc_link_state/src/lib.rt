//! A link and its cube by numbers: the state of both directions, the steps that can happen to them
//! with any masks, and a whole round with zero masks.
//!
//! A round is a function of the link and a relation of the cube. `Facts` holds after every list of
//! steps, and each round keeps it.
#![tactic(auto)]

ghost use Rattle.hmc_codes.specs.declared.profile.Profile.{Profile};
ghost use Rattle.std.specs.Prelude.{◌≡◌, ◌≤◌, List};
ghost use Rattle.hmc_codes.specs.Profile.{window_of as window};
ghost use Rattle.hmc_numbers.specs.Pointers.{pointer};
ghost use Rattle.hmc_link_state.specs.State.{Setup, Side, State, wire, under_way, IsEmpty};
ghost use Rattle.hmc_link_state.specs.Facts.{SideFacts, Facts};
ghost use Rattle.hmc_link_state.specs.Steps.{Doing, MayAll, link_after};
ghost use Rattle.hmc_link_state.specs.EachRound.{KeepsFacts, Steadies, StaysSteady, StaysSettled};
ghost use Rattle.hmc_link_state.specs.EachRound.{StaysReady};

/// What holds of a link after every list of steps, with any masks and unlocks. A return pointer
/// that equals the one sent last stands for the same packets.
pub fn lawful()
    ensures facts { (profile : Profile) (setup : Setup) → setup.retry ≤ window profile →
        (past : List Doing) → MayAll setup past →
        SideFacts setup (link_after setup past).forth (link_after setup past).back ×
        SideFacts setup (link_after setup past).back (link_after setup past).forth }
    ensures shown { (profile : Profile) (setup : Setup) (own other : Side) →
        setup.retry ≤ window profile → SideFacts setup own other → SideFacts setup other own →
        pointer profile (wire other).first own.ack_sent
        ≡ pointer profile (wire other).first (wire other).accepted →
        own.ack_sent ≡ (wire other).accepted }
    ensures empty { (setup : Setup) (state : State) →
        Facts setup state → under_way state ≡ 0 → IsEmpty state }
{}

/// What each round keeps.
pub fn each_round()
    ensures facts { (profile : Profile) (setup : Setup) → KeepsFacts profile setup }
    ensures steadies { (profile : Profile) (setup : Setup) → Steadies profile setup }
    ensures steady { (profile : Profile) (setup : Setup) → StaysSteady profile setup }
    ensures settled { (profile : Profile) (setup : Setup) → StaysSettled profile setup }
    ensures ready { (profile : Profile) (setup : Setup) → StaysReady profile setup }
{}
