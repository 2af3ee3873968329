//! The drain bound of a case of one cube and one link: so many whole rounds leave nothing under
//! way.
//!
//! `Drains` (specs/Bound) is the bound. specs/Ends says it of a schedule that ends with rounds, and
//! specs/Appended of rounds that are appended to one. docs/drain.md has the bound in words.
#![tactic(auto)]

ghost use Rattle.std.specs.Prelude.{◌≡◌, ◌++◌, ℕ, List, Option};
ghost use Rattle.hmc_bound.specs.Appended.{BoundDrains};
ghost use Rattle.hmc_bound.specs.Bound.{Drains};
ghost use Rattle.hmc_bound.specs.Counts.{IsCounted, IsFew};
ghost use Rattle.hmc_bound.specs.Ends.{IsDrainedBy, AllGiven, EndsDrained};
ghost use Rattle.hmc_send.specs.declared.toward.Toward.{Toward};
ghost use Rattle.hmc_send.specs.LinkEntries.{LinkEntry};
ghost use Rattle.hmc_codes.specs.Link.{LinkFields};
ghost use Rattle.hmc_case.specs.Case.{CaseFields, IsCase};
ghost use Rattle.hmc_entries.specs.declared.entry.Entry.{Entry};
ghost use Rattle.hmc_journal.specs.Drained.{is_drained};
ghost use Rattle.hmc_journal.specs.Hosts.{given_count};
ghost use Rattle.hmc_journal.specs.Lawful.{Lawful};
ghost use Rattle.hmc_journal.specs.Network.{IsNetwork};
ghost use Rattle.hmc_journal.specs.Setup.{Setup, setup_of};
ghost use Rattle.hmc_rounds.specs.Single.{IsSingle};
ghost use Rattle.hmc_units.specs.Unit.{UnitFields};

/// So many whole rounds drain a journal of one cube and one link. A case that ends with them has
/// `state drained` as its last line.
pub fn drains()
    // From a settled link, and from any.
    ensures bound { (setup : Setup) → Drains setup }

    // The same of one journal, and of the test whether it is drained.
    ensures journal { (setup : Setup) (journal : List Entry) → IsNetwork setup →
        IsDrainedBy setup journal (is_drained setup.topology journal) }

    // Where each request of the script was given, the rounds give none.
    ensures given { (setup : Setup) (past later : List Entry) → Lawful setup (later ++ past) →
        AllGiven setup past →
        (host : ℕ) → given_count host (later ++ past) ≡ given_count host past }

    // A schedule that ends with enough rounds has `state drained` as its last final line.
    ensures ends { (setup : Setup) → IsNetwork setup → EndsDrained setup }
    ensures cases { (case : CaseFields) (slots : List (Option UnitFields)) → IsCase case →
        EndsDrained (setup_of case slots) }

    // What a schedule leaves under way says how many rounds after it are enough.
    ensures appended { (setup : Setup) → IsNetwork setup → IsSingle setup.topology →
        BoundDrains setup }
    ensures bounds { (case : CaseFields) (slots : List (Option UnitFields)) → IsCase case →
        IsSingle (setup_of case slots).topology → BoundDrains (setup_of case slots) }
{}

/// The number under way is that of all links and all cubes: of each direction of a link what waits
/// or crosses and what is in the buffer at its end, and of a cube what its queues hold.
pub fn under_way_by_parts()
    ensures value { (setup : Setup) → IsCounted setup }
    ensures few { (link : LinkFields) (d : Toward) (past : List LinkEntry) → IsFew link d past }
{}
