//! What is spelled of a packet before its return pointer is known.

ghost use Rattle.std.specs.Prelude.{◌≡◌, ◌<◌, ◌≤◌, ◌+◌, ◌-◌, ◌*◌, ℕ, [], ◌++◌, length, take, drop, slice_index_or, if◌then◌else◌};
ghost use Rattle.hmc_codes.specs.declared.profile.Profile.{Profile};
ghost use Rattle.hmc_packet.specs.Draft.{front_bytes, tail_of_packet, draft_of};
ghost use Rattle.hmc_packet.specs.Packet.{flits_of};
ghost use Rattle.hmc_packet.specs.Spelling.{FitsProfile, word_bytes, half_bytes, inverse, check_of, covered, spelling};

use crate::Packet;
use crate::spelling::{bytes_of_half, bytes_of_word, header_with, tail_with};
use hmc_codes::{Flit, Layout, Profile, ZERO_FLIT};
use hmc_crc::{crc_fast, crc_update};

/// What is spelled of a packet once, before its first flit is sent: 16 bytes that belong to it.
///
/// The flits before the last are the packet's header and payload, whatever the profile and the
/// return pointer are. The check goes on over the tail when the last flit is made.
#[derive(Clone, Copy, PartialEq, Eq)]
pub struct Draft {
    // The word of the header.
    header: u64,
    // The check of header and payload.
    check: u32,
}

impl Draft {
    /// The draft of a packet.
    #[tactic(auto, unfolding(crate::specs::Draft::draft_of, crate::specs::Draft::front_bytes))]
    pub fn of(packet: &Packet) -> Self
        ensures { result ≡ draft_of packet.now }
    {
        let header = header_with(packet).pack(packet.command.layout());
        let start = crc_fast(&bytes_of_word(header));
        Draft {
            header,
            check: crc_update(start, packet.payload.as_slice()),
        }
    }

    /// A flit before the last, by its place from 0 on: the same in both profiles, and with every
    /// return pointer.
    pub fn front_flit(&self, packet: &Packet, at: u8) -> Flit
        requires draft { self.now ≡ draft_of packet.now }
        requires before_last { at + 1 < flits_of packet.now }
        ensures { (profile : Profile) (rrp : ℕ) →
            result ≡ slice_index_or (spelling profile packet.now rrp) at [] }
    {
        let at = usize::from(at);
        let payload = packet.payload.as_slice();
        flit_of_halves(
            &eight_bytes(self.header, payload, 2 * at),
            &eight_bytes(self.header, payload, 2 * at + 1),
        )
    }

    /// The last flit of a packet that is sent with this return pointer on a link of this profile.
    pub fn last_flit(&self, packet: &Packet, rrp: u16, profile: Profile) -> Flit
        requires draft { self.now ≡ draft_of packet.now }
        requires fits { FitsProfile profile packet.now rrp }
        ensures { result
            ≡ slice_index_or (spelling profile packet.now rrp) (flits_of packet.now - 1) [] }
    {
        match packet.command.layout() {
            Layout::Null => ZERO_FLIT,
            _ => self.end_flit(packet, rrp, profile),
        }
    }

    /// A flit, by its place from 0 on, of a packet that is sent with this return pointer on a link
    /// of this profile. The pointer counts in the last flit alone.
    pub fn flit(&self, packet: &Packet, at: u8, rrp: u16, profile: Profile) -> Flit
        requires draft { self.now ≡ draft_of packet.now }
        requires fits { FitsProfile profile packet.now rrp }
        requires within { at < flits_of packet.now }
        ensures { result ≡ slice_index_or (spelling profile packet.now rrp) at [] }
    {
        let last = packet.flits() - 1;
        if at < last {
            self.front_flit(packet, at)
        } else {
            self.last_flit(packet, rrp, profile)
        }
    }

    // The last flit of a packet that is no NULL.
    #[tactic(auto, unfolding(crate::specs::Draft::tail_of_packet))]
    fn end_flit(&self, packet: &Packet, rrp: u16, profile: Profile) -> Flit
        requires draft { self.now ≡ draft_of packet.now }
        requires fits { FitsProfile profile packet.now rrp }
        ensures { result
            ≡ take 8 (drop (length packet.now.payload) (front_bytes packet.now))
            ++ (tail_of_packet profile packet.now rrp
            ++ half_bytes (check_of packet.now.poisoned (covered profile packet.now rrp))) }
    {
        let payload = packet.payload.as_slice();
        let tail = tail_bytes(packet, rrp, profile);
        let check = carried_check(packet.poisoned, crc_update(self.check, &tail));
        flit_of_halves(
            &eight_bytes(self.header, payload, payload.len() / 8),
            &bytes_of_halves(&tail, &bytes_of_half(check)),
        )
    }
}

// Eight of the bytes of a header's word and a payload, from the byte 8 · at on.
fn eight_bytes(header: u64, payload: &[u8], at: usize) -> [u8; 8]
    requires { 8 * at ≤ length payload.now }
    ensures { result ≡ take 8 (drop (8 * at) (word_bytes header ++ payload.now)) }
{
    if at == 0 {
        return bytes_of_word(header);
    }
    let mut bytes = [0; 8];
    bytes.copy_from_slice(&payload[8 * (at - 1)..][..8]);
    bytes
}

// The first four bytes of a packet's last eight.
#[tactic(auto, unfolding(crate::specs::Draft::tail_of_packet))]
fn tail_bytes(packet: &Packet, rrp: u16, profile: Profile) -> [u8; 4]
    requires { FitsProfile profile packet.now rrp }
    ensures { result ≡ tail_of_packet profile packet.now rrp }
{
    let tail = tail_with(packet, rrp).pack(profile, packet.command.layout());
    bytes_of_half(tail)
}

// The check that a packet carries: a poisoned one the inverse of the right one.
fn carried_check(poisoned: bool, right: u32) -> u32
    ensures { result ≡ if poisoned then inverse right else right }
{
    if poisoned { !right } else { right }
}

// Two halves of eight bytes.
pub fn bytes_of_halves(first: &[u8; 4], second: &[u8; 4]) -> [u8; 8]
    ensures { result ≡ first.now ++ second.now }
{
    let mut bytes = [0; 8];
    bytes[..4].copy_from_slice(first);
    bytes[4..].copy_from_slice(second);
    bytes
}

// Two halves of a flit.
pub fn flit_of_halves(first: &[u8; 8], second: &[u8; 8]) -> Flit
    ensures { result ≡ first.now ++ second.now }
{
    let mut flit = ZERO_FLIT;
    flit[..8].copy_from_slice(first);
    flit[8..].copy_from_slice(second);
    flit
}
