//! Laws of the search. Each is the contract of a function that does nothing.

ghost use Rattle.std.specs.Prelude.{◌≡◌, ℕ, List, [], ◌∷◌, Some};
ghost use Rattle.hmc_codes.specs.Request.{RequestFields};
ghost use Rattle.hmc_entries.specs.declared.entry.Entry.{Entry};
ghost use Rattle.hmc_journal.specs.Setup.{Topology};
ghost use Rattle.hmc_search.specs.Early.{IsEarly};
ghost use Rattle.hmc_search.specs.Kept.{kept};
ghost use Rattle.hmc_search.specs.Point.{IsNext, Point, Waiting, executed};
ghost use Rattle.hmc_search.specs.Reached.{IsUntagged, Leads, Reaches};
ghost use Rattle.hmc_seen.specs.Explained.{IsExplained};
ghost use Rattle.hmc_serial.specs.Actions.{action_of};
ghost use Rattle.hmc_serial.specs.Machine.{State, apply};
ghost use Rattle.hmc_serial.specs.declared.action.Action.TheVariants as Action;

/// A log that leads to a state is explained.
pub fn reached_are_explained()
    ensures { (topology : Topology) (opening : State) (log : List Entry) (point : Point) →
        Reaches topology opening log point → IsExplained topology opening log }
{}

/// A log that is explained leads to a state.
pub fn explained_are_reached()
    ensures { (topology : Topology) (opening : State) (log : List Entry) → IsUntagged log →
        IsExplained topology opening log → (point : Point) × Reaches topology opening log point }
{}

/// The simplest search decides: a log in which no poisoned request has a tag is explained exactly
/// where the search keeps a state.
pub fn search_decides()
    ensures possible { (topology : Topology) (opening : State) (log : List Entry) (point : Point)
        (points : List Point) → IsUntagged log → kept topology opening log ≡ point ∷ points →
        IsExplained topology opening log }
    ensures impossible { (topology : Topology) (opening : State) (log : List Entry) →
        IsUntagged log → kept topology opening log ≡ [] → IsExplained topology opening log → ⊥ }
{}

/// A request that changes nothing, and whose answer fits now, can be executed now: the state leads
/// to the end of a log exactly where the state after that execution does.
pub fn early_ones_lose_nothing()
    ensures kept { (topology : Topology) (point : Point) (next : Waiting) (rest : List Waiting)
        (log : List Entry) (end : Point) → IsNext topology point.waiting next rest →
        IsEarly topology point next log → Leads topology point log end →
        (other : Point) × Leads topology (executed point next rest) log other }
    ensures none_new { (topology : Topology) (point : Point) (next : Waiting) (rest : List Waiting)
        (log : List Entry) (end : Point) → IsNext topology point.waiting next rest →
        Leads topology (executed point next rest) log end → Leads topology point log end }
{}

/// A read changes nothing, whatever the machine holds.
pub fn reads_change_nothing()
    ensures bytes { (request : RequestFields) (size : ℕ) →
        action_of request.command ≡ Some (Action.Read size) → (machine : State) →
        apply machine request ≡ machine }
    ensures register { (request : RequestFields) →
        action_of request.command ≡ Some Action.ReadRegister → (machine : State) →
        apply machine request ≡ machine }
{}
