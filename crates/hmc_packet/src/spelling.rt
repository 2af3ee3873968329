//! From a packet to its flits.

ghost use Rattle.std.specs.Prelude.{◌≡◌};
ghost use Rattle.hmc_packet.specs.Spelling.{FitsProfile, header_fields, tail_fields, word_bytes, half_bytes, spelling};

use crate::header::Header;
use crate::tail::Tail;
use crate::{Draft, Packet};
use arrayvec::ArrayVec;
use hmc_codes::{Flit, Profile};

#[tactic(auto, unfolding(crate::specs::Spelling::word_bytes))]
pub fn bytes_of_word(word: u64) -> [u8; 8]
    ensures { result ≡ word_bytes word }
{
    word.to_le_bytes()
}

#[tactic(auto, unfolding(crate::specs::Spelling::half_bytes))]
pub fn bytes_of_half(half: u32) -> [u8; 4]
    ensures { result ≡ half_bytes half }
{
    half.to_le_bytes()
}

pub fn header_with(packet: &Packet) -> Header
    ensures { result ≡ header_fields packet.now }
{
    Header {
        code: packet.command.code(),
        flits: packet.flits(),
        tag: packet.tag,
        address: packet.address,
        flag: packet.flag,
        slid: packet.slid,
        cube: packet.cube,
    }
}

pub fn tail_with(packet: &Packet, rrp: u16) -> Tail
    ensures { result ≡ tail_fields packet.now rrp }
{
    Tail {
        rrp,
        frp: packet.frp,
        seq: packet.seq,
        slid: packet.slid,
        errstat: packet.errstat,
        rtc: packet.rtc,
    }
}

/// The flits of a packet that is sent with this return pointer on a link of this profile.
///
/// Both pointers are below the profile's modulus, the return pointer of a NULL is 0, and in profile
/// Two the error number is below 8.
pub fn spell(packet: &Packet, rrp: u16, profile: Profile) -> ArrayVec<Flit, 17>
    requires { FitsProfile profile packet.now rrp }
    ensures { result.items ≡ spelling profile packet.now rrp }
{
    packet.invariant();
    let draft = Draft::of(packet);
    let mut flits = ArrayVec::new();
    for at in 0..packet.flits() {
        flits.push(draft.flit(packet, at, rrp, profile));
    }
    flits
}
