//! Laws of cases that grow. Each is the contract of a function that does nothing.

ghost use Rattle.std.specs.Prelude.{◌≡◌, ◌≤◌, ◌↔◌, ℕ, List, ◌∷◌, true, false, length};
ghost use Rattle.hmc_script.specs.Items.{ItemFields};
ghost use Rattle.hmc_schedule.specs.declared.step.Step.{Step};
ghost use Rattle.hmc_schedule.specs.Plan.{HasFlit};
ghost use Rattle.hmc_entries.specs.declared.entry.Entry.{Entry};
ghost use Rattle.hmc_journal.specs.Lawful.{Lawful, has_passed};
ghost use Rattle.hmc_journal.specs.Network.{IsItemOf, IsNetwork};
ghost use Rattle.hmc_journal.specs.Next.{next};
ghost use Rattle.hmc_journal.specs.Setup.{Setup, hosts_in, cubes_in};
ghost use Rattle.hmc_growing.specs.Growing.{with_step, with_item, is_end_of, IsOpen, IsEndGive};

/// Any step may be added after those of a schedule: no entry changes, and a journal of all earlier
/// steps goes on with the entry of this one.
pub fn a_step_may_be_added()
    ensures same { (setup : Setup) (past : List Entry) (step more : Step) →
        next (with_step setup more) past step ≡ next setup past step }
    ensures lawful { (setup : Setup) (past : List Entry) (more : Step) →
        length past ≤ length setup.schedule → Lawful setup past →
        Lawful (with_step setup more) past }
    ensures goes_on { (setup : Setup) (past : List Entry) (more : Step) →
        length past ≡ length setup.schedule → Lawful setup past → has_passed past ≡ false →
        Lawful (with_step setup more) (next setup past more ∷ past) }
    ensures network { (setup : Setup) (more : Step) → IsNetwork setup → HasFlit more →
        IsNetwork (with_step setup more) }
{}

/// A request may be added after those of a script exactly where no entry says that its host has
/// given all: then each entry stays what it was, and else one would be another. What a step yields
/// changes only where that is such an entry.
pub fn a_request_may_be_added()
    ensures same { (setup : Setup) (item : ItemFields) (past : List Entry) (step : Step) →
        is_end_of item.host (next setup past step) ≡ false →
        next (with_item setup item) past step ≡ next setup past step }
    ensures exactly { (setup : Setup) (item : ItemFields) (past : List Entry) →
        Lawful setup past → (IsOpen item.host past ↔ Lawful (with_item setup item) past) }
    ensures network { (setup : Setup) (item : ItemFields) → IsNetwork setup →
        IsItemOf (hosts_in setup.topology) (cubes_in setup.topology) item →
        IsNetwork (with_item setup item) }
{}

/// The entry of a step says that a host has given all exactly where the step is a give of this
/// host, and no request is left.
pub fn only_a_give_ends_a_host()
    ensures { (setup : Setup) (past : List Entry) (step : Step) (host : ℕ) →
        (is_end_of host (next setup past step) ≡ true) ↔ IsEndGive setup past step host }
{}
