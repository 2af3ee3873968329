//! Whole rounds of one cube and one link, by numbers: the cube's half of the drain bound.
//!
//! `RoundsFollow` (specs/Rounds) says that whole rounds follow a journal. `LinkPart` and
//! `LinkRounds` (specs/LinkPart) are what the link's half has to give: hmc_bound gives both.
//! `counted` (specs/Counted) is a journal as a state of hmc_link_state, and each whole round of it
//! is one of its rounds (proofs/RoundMade): a step of the cube makes a move or is idle, and where
//! all are idle no move can be made.
#![tactic(auto)]

ghost use Rattle.std.specs.Prelude.{List};
ghost use Rattle.hmc_send.specs.LinkEntries.{LinkEntry};
ghost use Rattle.hmc_link_state.specs.Steps.{Doing};
ghost use Rattle.hmc_journal.specs.Setup.{Setup};
ghost use Rattle.hmc_rounds.specs.Bound.{DrainsOver};

/// Journals of one cube and one link drain, for each way to read the entries of the link as steps
/// of hmc_link_state.
pub fn drains_over()
    ensures { (setup : Setup) (doings : List LinkEntry → List Doing) → DrainsOver setup doings }
{}
