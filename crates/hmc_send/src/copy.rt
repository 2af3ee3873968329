//! The copy of a packet that is passed on before it has come whole.

ghost use Rattle.std.specs.Prelude.{◌≡◌, ◌<◌, ◌≤◌, ◌+◌, ◌*◌, ◌/◌, ◌%◌, ◌^◌, ◌++◌, suc, true, false, not, if◌then◌else◌, drop, length, slice_index_or, []};
ghost use Rattle.std.specs.Prelude.{ℕ, Bool};
ghost use Rattle.std.specs.List.{concat};
ghost use Rattle.hmc_codes.specs.declared.profile.Profile.{Profile};
ghost use Rattle.hmc_send.specs.declared.numbers.Numbers.{Numbers};
ghost use Rattle.hmc_codes.specs.Bytes.{IsBytes};
ghost use Rattle.hmc_codes.specs.Commands.{allows_of, is_flow, layout_of};
ghost use Rattle.hmc_codes.specs.declared.layout.Layout.TheVariants.{Ask};
ghost use Rattle.hmc_packet.specs.Header.{header_of};
ghost use Rattle.hmc_packet.specs.Packet.{flits_of};
ghost use Rattle.hmc_packet.specs.Reading.{packet_from};
ghost use Rattle.hmc_packet.specs.Tail.{FitsField, tail_layout};
ghost use Rattle.hmc_codes.specs.Profile.{modulus_of};
ghost use Rattle.hmc_send.specs.Copies.{copy_of, errstat_for, is_reply, tail_with};
ghost use Rattle.hmc_send.specs.Kept.{IsHead, AreNumbers, IsPayloadOf, CanBeSent};

use crate::Numbers;
use arrayvec::ArrayVec;
use hmc_codes::{Command, Flit, Layout, Payload, Profile};
use hmc_packet::{Header, Packet, head_of, header_in};

/// The bytes of at most 16 flits and half a flit.
type Bytes = ArrayVec<u8, 272>;

// Appends bytes for which there is room.
fn append(bytes: &mut Bytes, more: &[u8])
    requires { length bytes.old.items + length more.now ≤ 272 }
    ensures { bytes.new.items ≡ bytes.old.items ++ more.now }
{
    let _ = bytes.try_extend_from_slice(more);
}

// The bytes of flits and of half a flit more.
fn joined(front: &[Flit], half: &[u8; 8]) -> Bytes
    requires { length front.now ≤ 16 }
    ensures bytes { result.items ≡ concat front.now ++ half.now }
    ensures len { length result.items ≡ 16 * length front.now + 8 }
{
    let mut bytes = Bytes::new();
    'flits: for flit in front {
        append(&mut bytes, flit);
    }
    append(&mut bytes, half);
    bytes
}

// The error number that goes into the tail of the copy.
fn errstat_for(profile: Profile, layout: Layout, errstat: u8) -> u8
    ensures value { result ≡ errstat_for profile layout errstat }
    ensures few { result < 2 ^ 7 }
    ensures fits { FitsField (tail_layout profile).errstat result }
    ensures ask { layout ≡ Ask → result ≡ 0 }
{
    match (layout, profile) {
        (Layout::Reply, Profile::One) => errstat % 128,
        (Layout::Reply, Profile::Two) => errstat % 8,
        _ => 0,
    }
}

// The SLID of a packet: of a response it is in the header, of a request in the tail.
fn slid_of(layout: Layout, header: &Header, slid: u8) -> u8
    ensures { result ≡ (if is_reply layout then header.now.slid else slid) }
{
    match layout {
        Layout::Reply => header.slid,
        _ => slid,
    }
}

// The packet with a header's fields, the numbers of this direction, and this payload.
#[tactic(auto, unfolding(hmc_packet::specs::Reading::packet_from))]
fn packet_from(
    command: Command,
    word: u64,
    slid: u8,
    errstat: u8,
    poisoned: bool,
    numbers: Numbers,
    payload: Payload,
) -> Packet
    requires no_flow { is_flow (layout_of command) ≡ false }
    requires slid { slid < 8 }
    requires errstat { errstat < 2 ^ 7 }
    requires ask { layout_of command ≡ Ask → errstat ≡ 0 }
    requires numbers { AreNumbers numbers }
    requires filled { IsPayloadOf command payload }
    ensures { result ≡ packet_from (layout_of command) command
        (header_of (layout_of command) word)
        (tail_with numbers slid errstat) poisoned payload }
{
    let layout = command.layout();
    let header = Header::unpack(layout, word);
    Packet {
        command,
        tag: header.tag,
        address: header.address,
        cube: header.cube,
        slid: slid_of(layout, &header, slid),
        flag: header.flag,
        errstat,
        rtc: numbers.rtc,
        seq: numbers.seq,
        frp: numbers.frp,
        poisoned,
        payload,
    }
}

// The payload of a packet, of the bytes that come after its header.
fn payload_of(bytes: &Bytes) -> Payload
    requires some { 8 ≤ length bytes.now.items }
    requires few { length bytes.now.items ≤ 264 }
    ensures payload { result ≡ drop 8 bytes.now.items }
    ensures are_bytes { IsBytes result }
{
    let Some(payload) = Payload::from_slice(&bytes.as_slice()[8..]) else {
        unreachable!()
    };
    payload
}

/// The copy of a packet: its flits before the last, the first half of its last, its SLID or
/// ERRSTAT, and whether it was accepted, with the numbers of this direction.
#[tactic(auto, unfolding(crate::specs::Copies::copy_of))]
pub fn copy_of(
    profile: Profile,
    front: &[Flit],
    half: &[u8; 8],
    slid: u8,
    errstat: u8,
    good: bool,
    numbers: Numbers,
) -> Packet
    requires some { 1 ≤ length front.now }
    requires few { length front.now ≤ 16 }
    requires head { IsHead (slice_index_or front.now 0 []) (suc (length front.now)) }
    requires slid { slid < 8 }
    requires numbers { AreNumbers numbers }
    requires forward { numbers.frp < modulus_of profile }
    ensures packet { result ≡ copy_of profile front.now half.now slid errstat good numbers }
    ensures flits { flits_of result ≡ suc (length front.now) }
    ensures fits { CanBeSent profile result }
{
    let Some(head) = head_of(&front[0]) else {
        unreachable!()
    };
    let bytes = joined(front, half);
    let word = header_in(&front[0]);
    let errstat = errstat_for(profile, head.command.layout(), errstat);
    packet_from(
        head.command,
        word,
        slid,
        errstat,
        !good,
        numbers,
        payload_of(&bytes),
    )
}

/// Does nothing. Its contract is that each copy of these flits is as long as they are with one
/// more, and may be sent.
pub fn copies_fit(front: &[Flit], half: &[u8; 8])
    requires some { 1 ≤ length front.now }
    requires head { IsHead (slice_index_or front.now 0 []) (suc (length front.now)) }
    ensures flits { (profile : Profile) (slid errstat : ℕ) (good : Bool) (n : Numbers) →
        flits_of (copy_of profile front.now half.now slid errstat good n)
        ≡ suc (length front.now) }
    ensures fits { (profile : Profile) (slid errstat : ℕ) (good : Bool) (n : Numbers) →
        n.frp < modulus_of profile →
        CanBeSent profile (copy_of profile front.now half.now slid errstat good n) }
{
    let _ = front.len();
    let _ = half[0];
}
