//! Laws of a sender and a pipe.

ghost use Rattle.std.specs.Prelude.{◌≡◌, ◌∷◌, ℕ, List, slice_get, Some};
ghost use Rattle.hmc_codes.specs.declared.profile.Profile.{Profile};
ghost use Rattle.hmc_packet.specs.Packet.{PacketFields};
ghost use Rattle.hmc_send.specs.Entries.{SenderEntry, places};
ghost use Rattle.hmc_send.specs.Places.{Place};
ghost use Rattle.hmc_copies.specs.Calls.{Forwarding, CanBeForwarded, Call, AreCalls, pipe_after, sender_after, copy_place, IsPlaceOfCopy};

/// The place of a packet that is forwarded is filled with the copy of the flits that came. Until
/// its last flit is sent the place is open, and the flits that were sent are the first of those
/// that came. Then its packet has these flits but for the last one, of the last one the first eight
/// bytes and SLID or ERRSTAT, the numbers of its own direction, and it isn't poisoned exactly where
/// the packet was accepted. Flits that never came are zero.
pub fn places_are_filled_with_copies()
    ensures { (f : Forwarding) (calls : List Call) → CanBeForwarded f → AreCalls f calls →
        IsPlaceOfCopy f (sender_after f calls) (pipe_after f calls) (copy_place f calls) }
{}

/// A place that has its packet keeps it, whatever entry the sender makes.
pub fn filled_places_stay()
    ensures { (profile : Profile) (past : List SenderEntry) (entry : SenderEntry) (n : ℕ)
        (packet : PacketFields) →
        slice_get (places profile past) n ≡ Some (Place.known packet) →
        slice_get (places profile (entry ∷ past)) n ≡ Some (Place.known packet) }
{}
