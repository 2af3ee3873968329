//! Laws of packets and their spellings on a link. Each is the contract of a function that does
//! nothing.

ghost use Rattle.std.specs.Prelude.{◌≡◌, ◌≢◌, ◌≤◌, ◌<◌, ◌+◌, ◌-◌, ◌^◌, ℕ, Bool, false, not, List, [], ◌∷◌, ◌++◌, length, take, slice_index_or, Some, None, Ok};
ghost use Rattle.std.specs.List.{concat};
ghost use Rattle.hmc_codes.specs.Commands.{layout_of, is_flow};
ghost use Rattle.hmc_codes.specs.Flit.{zero_flit};
ghost use Rattle.hmc_codes.specs.Profile.{modulus_of};
ghost use Rattle.hmc_codes.specs.declared.command.Command.TheVariants.{Irtry, Pret, Tret};
ghost use Rattle.hmc_codes.specs.declared.profile.Profile.{Profile};
ghost use Rattle.hmc_codes.specs.declared.layout.Layout.TheVariants.{Ask};
ghost use Rattle.hmc_packet.specs.declared.head.Head.{Head};
ghost use Rattle.hmc_packet.specs.declared.kind.Kind.{Kind};
ghost use Rattle.hmc_packet.specs.declared.tail.Tail.{Tail};
ghost use Rattle.hmc_packet.specs.Copy.{IsFront, IsTailAfter, copied_packet};
ghost use Rattle.hmc_packet.specs.Draft.{front_bytes};
ghost use Rattle.hmc_packet.specs.Irtry.{irtry_flit, irtry_in, irtry_packet};
ghost use Rattle.hmc_packet.specs.Laws.{IsSentAs};
ghost use Rattle.hmc_packet.specs.LandingRows.{reception_by_rows};
ghost use Rattle.hmc_packet.specs.Packet.{PacketFields, IsPacket, flits_of, null_packet};
ghost use Rattle.hmc_packet.specs.Reading.{read_of};
ghost use Rattle.hmc_packet.specs.Receptions.{LandingView, reception_by};
ghost use Rattle.hmc_packet.specs.Spelling.{spelling, training_flit};

/// The flits of a packet in their order, each spelled with the return pointer of its own time, are
/// the front of its spelling with any pointer. With the last flit they are its spelling with the
/// pointer of that flit.
pub fn flits_in_order_are_a_spelling()
    ensures front { (profile : Profile) (p : PacketFields) (r s k : ℕ) → IsPacket p →
        k + 1 < flits_of p →
        take k (spelling profile p r) ++ slice_index_or (spelling profile p s) k [] ∷ [] ≡
        take (k + 1) (spelling profile p r) }
    ensures whole { (profile : Profile) (p : PacketFields) (r s k : ℕ) → IsPacket p →
        k + 1 ≡ flits_of p →
        take k (spelling profile p r) ++ slice_index_or (spelling profile p s) k [] ∷ [] ≡
        spelling profile p s }
{}

/// An IRTRY is read alone as the one that was spelled. The first flit of any other packet reads
/// alone as no IRTRY, and neither does a NULL or the training flit.
pub fn irtry_is_read_alone()
    ensures irtry { (profile : Profile) (kind : Kind) (rrp : ℕ) → rrp < modulus_of profile →
        irtry_in profile (irtry_flit profile kind rrp) ≡ Some (kind, rrp) }
    ensures spelled { (profile : Profile) (kind : Kind) (rrp : ℕ) →
        spelling profile (irtry_packet kind) rrp ≡ irtry_flit profile kind rrp ∷ [] }
    ensures first { (profile : Profile) (p : PacketFields) (rrp : ℕ)
        (first : List ℕ) (rest : List (List ℕ)) →
        IsSentAs profile p rrp first rest → p.command ≢ Irtry →
        irtry_in profile first ≡ None }
    ensures null { (profile : Profile) → irtry_in profile zero_flit ≡ None }
    ensures training { (profile : Profile) → irtry_in profile training_flit ≡ None }
{}

/// A NULL is read as such with no flit after it.
pub fn null_is_read_alone()
    ensures { (profile : Profile) →
        read_of profile (zero_flit ∷ []) ≡ Ok (record { packet = null_packet; rrp = 0 }) }
{}

/// The packets that an end of a link makes itself are packets.
pub fn packets_of_an_end_are_packets()
    ensures pret { IsPacket (record null_packet { command = Pret }) }
    ensures tret { (rtc seq frp : ℕ) → rtc < 8 → seq < 8 → frp < 2 ^ 11 →
        IsPacket (record null_packet { command = Tret; rtc = rtc; seq = seq; frp = frp }) }
    ensures irtry { (kind : Kind) → IsPacket (irtry_packet kind) }
{}

/// A request or a response stays a packet whatever its numbers are, and poisoned or not.
pub fn numbers_and_poison_keep_a_packet()
    ensures numbered { (p : PacketFields) (rtc seq frp : ℕ) →
        is_flow (layout_of p.command) ≡ false → IsPacket p →
        rtc < 8 → seq < 8 → frp < 2 ^ 11 →
        IsPacket (record p { rtc = rtc; seq = seq; frp = frp }) }
    ensures poisoned { (p : PacketFields) (poisoned : Bool) →
        is_flow (layout_of p.command) ≡ false → IsPacket p →
        IsPacket (record p { poisoned = poisoned }) }
{}

/// The copy of a packet that goes on before it has come whole is a packet, as long as the head
/// says, and its flits before the last are those that came, whatever came.
pub fn copies_are_packets()
    ensures packet { (profile : Profile)
        (bytes : List ℕ) (head : Head) (tail : Tail) (good : Bool) →
        IsFront bytes head → IsTailAfter profile head.command tail →
        IsPacket (copied_packet head.command bytes tail good) }
    ensures flits { (bytes : List ℕ) (head : Head) (tail : Tail) (good : Bool) →
        IsFront bytes head →
        flits_of (copied_packet head.command bytes tail good) ≡ head.flits }
    ensures front { (profile : Profile) (flits : List (List ℕ)) (half : List ℕ)
        (head : Head) (tail : Tail) (good : Bool) (rrp : ℕ) →
        ((k : ℕ) → k < length flits → length (slice_index_or flits k []) ≡ 16) →
        length flits ≡ head.flits - 1 →
        IsFront (concat flits ++ half) head → IsTailAfter profile head.command tail →
        take (head.flits - 1) (spelling profile
        (copied_packet head.command (concat flits ++ half) tail good) rrp) ≡ flits }
{}

/// The copy of a request or a response that came whole is that packet with other numbers, and
/// poisoned unless it is good.
pub fn copy_of_a_whole_packet_is_the_packet()
    ensures bytes { (profile : Profile) (p : PacketFields) (rrp : ℕ) → IsPacket p →
        is_flow (layout_of p.command) ≡ false →
        concat (take (flits_of p - 1) (spelling profile p rrp))
        ++ take 8 (slice_index_or (spelling profile p rrp) (flits_of p - 1) []) ≡ front_bytes p }
    ensures same { (p : PacketFields) (tail : Tail) (good : Bool) → IsPacket p →
        is_flow (layout_of p.command) ≡ false →
        (layout_of p.command ≡ Ask → tail.slid ≡ p.slid) → tail.errstat ≡ p.errstat →
        copied_packet p.command (front_bytes p) tail good ≡
        record p { frp = tail.frp; seq = tail.seq; rtc = tail.rtc; poisoned = not good } }
{}

/// What the landing of a flit gives is what the first of its rows gives that gives something.
pub fn landings_are_by_rows()
    ensures { (profile : Profile) (view : LandingView) (flit : List ℕ) →
        reception_by profile view flit ≡ reception_by_rows profile view flit }
{}
