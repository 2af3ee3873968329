//! The entries of a link are steps of hmc_link_state: the link's half of the drain bound.
//!
//! `doings_of` (specs/Doings) has the steps of a list of entries, and `link_in` (specs/SideIn) the
//! numbers that the list shows. A link is settled exactly where it is so by these numbers.
#![tactic(auto)]

ghost use Rattle.std.specs.Prelude.{List};
ghost use Rattle.hmc_codes.specs.Link.{LinkFields};
ghost use Rattle.hmc_send.specs.LinkEntries.{LinkEntry, other};
ghost use Rattle.hmc_send.specs.declared.toward.Toward.{Toward};
ghost use Rattle.hmc_wire.specs.LinkLaws.{IsKept};
ghost use Rattle.hmc_link_state.specs.Steps.{IsSettledLink};
ghost use Rattle.hmc_steps.specs.Doings.{AreWhole, AreSteps};
ghost use Rattle.hmc_steps.specs.SideIn.{side_in, link_in};
ghost use Rattle.hmc_steps.specs.SideIs.{SideIs};
ghost use Rattle.hmc_journal.specs.Settled.{IsSettled};
ghost use Rattle.hmc_steps.specs.Drains.{DrainsFrom, AnyList};

/// The entries of a lawful list without cut-throughs are steps that may come, and lead to what the
/// list says.
pub fn entries_are_steps()
    ensures steps { (link : LinkFields) (past : List LinkEntry) →
        IsKept link past → AreWhole past → AreSteps link past }
    ensures fields { (link : LinkFields) (d : Toward) (past : List LinkEntry) →
        IsKept link past → SideIs link d past (side_in link d past) (side_in link (other d) past) }
    ensures settled { (link : LinkFields) (past : List LinkEntry) →
        IsKept link past → IsSettled link past → IsSettledLink (link_in link past) }
    ensures settles { (link : LinkFields) (past : List LinkEntry) →
        IsKept link past → IsSettledLink (link_in link past) → IsSettled link past }
{}

/// From every lawful list without cut-throughs, so many rounds by numbers leave nothing under way.
pub fn drains_from()
    ensures settled { DrainsFrom 0 IsSettled }
    ensures any { DrainsFrom 4000 AnyList }
{}
