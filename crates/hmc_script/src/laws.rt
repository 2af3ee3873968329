//! Laws of scripts. Each is the contract of a function that does nothing.

ghost use Rattle.hmc_script.specs.Laws.{PrintedIsRead};

/// Does nothing. Its contract is that a printed script is read again as the same script.
pub fn printed_is_read()
    ensures { PrintedIsRead }
{}
