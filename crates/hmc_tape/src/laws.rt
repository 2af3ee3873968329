//! What a tape is: a case. It is the contract of a function that does nothing.

ghost use Rattle.hmc_tape.specs.Laws.{TapeIsCase};

/// Does nothing. Its contract is that the tape of a session is a case, unless it has more requests
/// or steps than a case may have, and that this case has the session's journal.
pub fn a_tape_is_a_case()
    ensures { TapeIsCase }
{}
