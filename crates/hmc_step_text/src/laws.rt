//! A law of printed steps. It is the contract of a function that does nothing.

ghost use Rattle.hmc_step_text.specs.Laws.{PrintedStepsAreRead};

/// Does nothing. Its contract is that printed steps are read again as the same steps.
pub fn printed_steps_are_read()
    ensures { PrintedStepsAreRead }
{}
