//! Laws of what a send gives, for readers and for the layers above. Each is the contract of a
//! function that does nothing.

ghost use Rattle.std.specs.Prelude.{◌≡◌};
ghost use Rattle.hmc_codes.specs.declared.profile.Profile.{Profile};
ghost use Rattle.hmc_send.specs.Choice.{SendView, choice};
ghost use Rattle.hmc_send.specs.SendRows.{choice_by_rows};

/// What a send gives is what the first of its ten rows gives that gives something.
pub fn sends_are_by_rows()
    ensures { (profile : Profile) (s : SendView) → choice profile s ≡ choice_by_rows profile s }
{}
