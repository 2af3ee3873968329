//! The list of each direction.

ghost use Rattle.std.specs.Prelude.{◌≡◌, ◌++◌, ◌∷◌, [], ℕ, true, List, map};
ghost use Rattle.hmc_codes.specs.Link.{LinkFields};
ghost use Rattle.hmc_packet.specs.declared.feed.Feed.{Feed};
ghost use Rattle.hmc_packet.specs.declared.what.What.{What};
ghost use Rattle.hmc_packet.specs.Packet.{PacketFields};
ghost use Rattle.hmc_send.specs.LinkEntries.{LinkEntry};
ghost use Rattle.hmc_send.specs.declared.toward.Toward.{Toward};
ghost use Rattle.hmc_wire.specs.LinkLaws.{IsKept};
ghost use Rattle.hmc_ends.specs.Landings.{entry_landed, landing_in, stored};
ghost use Rattle.hmc_ends.specs.List.{handed_list, list_sent, listed_open, listed_packet, leaves};

/// What each entry does to the list of its direction: the packets that were handed and are not
/// accepted, with forwarded packets in their places (`handed_list`).
///
/// A packet that is handed comes to the end of the list, and so does the open place of a packet
/// that begins to be forwarded (a cut-through). A landing that accepts a request or a response
/// removes the front of the list and gives it, and no other landing changes the list. The last flit
/// of a forwarded packet fills its place; no other flit that is sent changes the list, and no entry
/// of the other direction does.
pub fn directions_are_lists()
    ensures handed { (link : LinkFields) (d : Toward) (packet : PacketFields)
        (past : List LinkEntry) → IsKept link (LinkEntry.handed d packet ∷ past) →
        handed_list link d (LinkEntry.handed d packet ∷ past)
        ≡ handed_list link d past ++ listed_packet packet ∷ [] }
    ensures begun { (link : LinkFields) (d : Toward) (head : List ℕ) (flits : ℕ)
        (past : List LinkEntry) → IsKept link (LinkEntry.through d head flits ∷ past) →
        handed_list link d (LinkEntry.through d head flits ∷ past)
        ≡ handed_list link d past ++ listed_open head flits ∷ [] }
    ensures sent { (link : LinkFields) (d : Toward) (feed : Feed) (as_what : What)
        (flit : List ℕ) (past : List LinkEntry) →
        IsKept link (LinkEntry.sent d feed as_what flit ∷ past) →
        handed_list link d (LinkEntry.sent d feed as_what flit ∷ past)
        ≡ list_sent link d past feed as_what }
    ensures landed { (link : LinkFields) (d : Toward) (mask flit : List ℕ)
        (past : List LinkEntry) → IsKept link (entry_landed link d past mask flit ∷ past) →
        handed_list link d past ≡ map listed_packet (stored (landing_in link d past flit))
        ++ handed_list link d (entry_landed link d past mask flit ∷ past) }
    ensures left { (link : LinkFields) (d : Toward) (entry : LinkEntry)
        (past : List LinkEntry) → leaves d entry ≡ true →
        handed_list link d (entry ∷ past) ≡ handed_list link d past }
{}
