//! Laws of packets and their spellings that the layers above use. Each is the contract of a
//! function that does nothing.

ghost use Rattle.std.specs.Prelude.{◌≡◌, ◌≢◌, ◌≤◌, ◌<◌, ◌-◌, ◌^◌, ℕ, Bool, true, false, List, [], ◌∷◌, length, take, slice_index_or, Some, Ok, Err};
ghost use Rattle.hmc_codes.specs.Commands.{layout_of, is_flow};
ghost use Rattle.hmc_codes.specs.Request.{RequestFields, IsRequest};
ghost use Rattle.hmc_codes.specs.declared.answer.Answer.{Answer};
ghost use Rattle.hmc_codes.specs.declared.command.Command.TheVariants.{Null, Irtry};
ghost use Rattle.hmc_codes.specs.declared.profile.Profile.{Profile};
ghost use Rattle.hmc_packet.specs.declared.bad.Bad.TheVariants as bads;
ghost use Rattle.hmc_packet.specs.declared.seen.Seen.{Seen};
ghost use Rattle.hmc_packet.specs.Packet.{PacketFields, IsPacket, flits_of};
ghost use Rattle.hmc_packet.specs.Spelling.{FitsProfile, spelling, training_flit};
ghost use Rattle.hmc_codes.specs.Flit.{zero_flit};
ghost use Rattle.hmc_packet.specs.Parts.{lng_of};
ghost use Rattle.hmc_packet.specs.Reading.{read_of};
ghost use Rattle.hmc_codes.specs.Answer.{CanReply, IsAnswer};
ghost use Rattle.hmc_packet.specs.Transactions.{request_packet, reply_packet, request_in, answer_in};
ghost use Rattle.hmc_packet.specs.Head.{named_by, head_in, packet_head, SameHead};
ghost use Rattle.hmc_packet.specs.Laws.{IsSentAs};

/// A spelling has as many flits as its packet, 1 to 17, of 16 bytes each.
pub fn spelling_is_as_long_as_its_packet()
    ensures length { (profile : Profile) (p : PacketFields) (rrp : ℕ) → IsPacket p →
        length (spelling profile p rrp) ≡ flits_of p }
    ensures some { (p : PacketFields) → IsPacket p → 1 ≤ flits_of p }
    ensures few { (p : PacketFields) → IsPacket p → flits_of p ≤ 17 }
    ensures flits { (profile : Profile) (p : PacketFields) (rrp k : ℕ) → IsPacket p →
        k < length (spelling profile p rrp) →
        length (slice_index_or (spelling profile p rrp) k []) ≡ 16 }
{}

/// The first flit of a packet that is no NULL names the number of flits and the packet's command,
/// and isn't all zero.
pub fn first_flit_names_length_and_command()
    ensures lng { (profile : Profile) (p : PacketFields) (rrp : ℕ)
        (first : List ℕ) (rest : List (List ℕ)) →
        IsSentAs profile p rrp first rest → p.command ≢ Null →
        lng_of first ≡ flits_of p }
    ensures command { (profile : Profile) (p : PacketFields) (rrp : ℕ)
        (first : List ℕ) (rest : List (List ℕ)) →
        IsSentAs profile p rrp first rest → p.command ≢ Null →
        named_by first ≡ Some p.command }
    ensures some { (profile : Profile) (p : PacketFields) (rrp : ℕ)
        (first : List ℕ) (rest : List (List ℕ)) →
        IsSentAs profile p rrp first rest → p.command ≢ Null →
        first ≢ zero_flit }
{}

/// The first flit of a request or a response tells its head.
pub fn first_flit_tells_the_head()
    ensures { (profile : Profile) (p : PacketFields) (rrp : ℕ)
        (first : List ℕ) (rest : List (List ℕ)) →
        IsSentAs profile p rrp first rest → is_flow (layout_of p.command) ≡ false →
        head_in first ≡ Some (packet_head p) }
{}

/// The flits before the last don't depend on what the tail carries, so not on the return pointer.
pub fn front_flits_do_not_depend_on_the_tail()
    ensures pointer { (profile : Profile) (p : PacketFields) (r s : ℕ) → IsPacket p →
        take (flits_of p - 1) (spelling profile p r) ≡
        take (flits_of p - 1) (spelling profile p s) }
    ensures tail { (profile : Profile) (p q : PacketFields) (r s : ℕ) → IsPacket p → IsPacket q →
        SameHead p q →
        take (flits_of p - 1) (spelling profile p r) ≡
        take (flits_of q - 1) (spelling profile q s) }
{}

/// A packet's first flit alone reads as no other command: so it is no IRTRY unless the packet is
/// one. The first of several flits is Bad alone.
pub fn first_flit_alone_reads_as_no_other_command()
    ensures command { (profile : Profile)
        (p : PacketFields) (rrp : ℕ) (first : List ℕ) (rest : List (List ℕ)) (seen : Seen) →
        IsSentAs profile p rrp first rest → read_of profile (first ∷ []) ≡ Ok seen →
        seen.packet.command ≡ p.command }
    ensures no_irtry { (profile : Profile)
        (p : PacketFields) (rrp : ℕ) (first : List ℕ) (rest : List (List ℕ)) (seen : Seen) →
        IsSentAs profile p rrp first rest → p.command ≢ Irtry →
        read_of profile (first ∷ []) ≡ Ok seen →
        seen.packet.command ≢ Irtry }
    ensures several { (profile : Profile) (p : PacketFields) (rrp : ℕ)
        (first : List ℕ) (rest : List (List ℕ)) →
        IsSentAs profile p rrp first rest → 1 < flits_of p →
        read_of profile (first ∷ []) ≡ Err bads.Length }
{}

/// A flow packet, as an IRTRY or a PRET, is one flit, and reads alone as it was spelled.
pub fn flow_packet_is_one_flit()
    ensures { (profile : Profile) (p : PacketFields) (rrp : ℕ) → IsPacket p →
        FitsProfile profile p rrp → is_flow (layout_of p.command) ≡ true →
        (flit : List ℕ) × (spelling profile p rrp ≡ flit ∷ []) ×
        (read_of profile (flit ∷ []) ≡ Ok (record { packet = p; rrp = rrp })) }
{}

/// LNG of a NULL is 0. That of the training flit is over 17, so flits that begin with it are no
/// packet.
pub fn null_and_training_are_no_first_flits()
    ensures null { lng_of zero_flit ≡ 0 }
    ensures training { 17 < lng_of training_flit }
    ensures apart { training_flit ≢ zero_flit }
    ensures bad { (profile : Profile) (rest : List (List ℕ)) →
        read_of profile (training_flit ∷ rest) ≡ Err bads.Length }
{}

/// What is spelled is read, and no two packets or pointers have one spelling.
pub fn spelling_is_read_back()
    ensures read { (profile : Profile) (p : PacketFields) (rrp : ℕ) → IsPacket p →
        FitsProfile profile p rrp →
        read_of profile (spelling profile p rrp) ≡ Ok (record { packet = p; rrp = rrp }) }
    ensures packet { (profile : Profile) (p q : PacketFields) (r s : ℕ) → IsPacket p →
        FitsProfile profile p r → IsPacket q → FitsProfile profile q s →
        spelling profile p r ≡ spelling profile q s →
        p ≡ q }
    ensures pointer { (profile : Profile) (p q : PacketFields) (r s : ℕ) → IsPacket p →
        FitsProfile profile p r → IsPacket q → FitsProfile profile q s →
        spelling profile p r ≡ spelling profile q s →
        r ≡ s }
{}

/// A request is carried by its packet, whatever its tag, its host link and its poison are.
pub fn request_comes_back()
    ensures packet { (r : RequestFields) (tag slid : ℕ) (poisoned : Bool) → IsRequest r →
        tag < 2 ^ 11 → slid < 8 →
        IsPacket (request_packet r tag slid poisoned) }
    ensures request { (r : RequestFields) (tag slid : ℕ) (poisoned : Bool) → IsRequest r →
        request_in (request_packet r tag slid poisoned) ≡ Some r }
{}

/// An answer that a packet can carry is carried by it, whatever its tag, its host link and its cube
/// are.
pub fn answer_comes_back()
    ensures packet { (a : Answer) (tag slid cube : ℕ) → CanReply a → IsAnswer a →
        tag < 2 ^ 11 → slid < 8 → cube < 8 →
        IsPacket (reply_packet a tag slid cube) }
    ensures answer { (a : Answer) (tag slid cube : ℕ) → CanReply a → IsAnswer a →
        answer_in (reply_packet a tag slid cube) ≡ Some a }
{}
