//! From plain numbers to flits.

ghost use Rattle.std.specs.Prelude.{◌≡◌, ◌<◌, ◌≤◌, None, Some, length, true};
ghost use Rattle.std.specs.Option.{MatchOption};
ghost use Rattle.hmc_codes.specs.Bytes.{IsBytes};
ghost use Rattle.hmc_packet.specs.Packet.{IsPacket};
ghost use Rattle.hmc_packet.specs.Spelling.{FitsProfile};
ghost use Rattle.hmc_codec.specs.Plain.{fields_of, fits_profile, is_filled, is_flow, is_in_range, is_laid_out, is_packet, is_uncounted, packet_named, packet_with, payload_of, profile_of, spelled_by};

use crate::PlainPacket;
use crate::reading::profile_of;
use arrayvec::ArrayVec;
use hmc_codes::{Command, Flit, Layout, Payload, Profile};
use hmc_packet::{Packet, spell};

// Whether each field fits its bits.
fn is_in_range(plain: &PlainPacket) -> bool
    ensures { result ≡ is_in_range plain.now }
{
    let narrow = plain.cube < 8 && plain.slid < 8 && plain.rtc < 8 && plain.seq < 8;
    let wide = plain.tag < 2048 && plain.frp < 2048 && plain.errstat < 128;
    wide && narrow && plain.address < 1 << 34
}

// Whether the fields that only a transaction has are zero.
fn is_flow(plain: &PlainPacket) -> bool
    ensures { result ≡ is_flow plain.now }
{
    let numbers = plain.tag == 0 && plain.address == 0 && plain.cube == 0 && plain.slid == 0;
    numbers && plain.errstat == 0 && !plain.flag && !plain.poisoned
}

// Whether it returns no tokens and isn't counted.
fn is_uncounted(plain: &PlainPacket) -> bool
    ensures { result ≡ is_uncounted plain.now }
{
    plain.rtc == 0 && plain.seq == 0
}

// Whether each field is as a layout has it.
fn is_laid_out(layout: Layout, plain: &PlainPacket) -> bool
    ensures { result ≡ is_laid_out layout plain.now }
{
    match layout {
        Layout::Null | Layout::Pret => is_flow(plain) && (is_uncounted(plain) && plain.frp == 0),
        Layout::Tret => is_flow(plain),
        Layout::Irtry => {
            is_flow(plain) && (is_uncounted(plain) && (plain.frp == 1 || plain.frp == 2))
        }
        Layout::Ask => !plain.flag && plain.errstat == 0,
        Layout::Reply => plain.address == 0,
    }
}

// Whether a command has as many bytes of payload.
fn is_filled(command: Command, payload: &Payload) -> bool
    ensures { result ≡ is_filled command payload.now }
{
    let length = payload.as_slice().len();
    length % 16 == 0 && command.allows((1 + length / 16) as u8)
}

// The bytes that count.
fn payload_of(plain: &PlainPacket) -> Option<Payload>
    ensures { result ≡ payload_of plain.now }
{
    if plain.length > 256 {
        return None;
    }
    Payload::from_slice(&plain.payload[..plain.length as usize])
}

// The packet of this command and payload, if the numbers are one.
fn packet_with(plain: &PlainPacket, command: Command, payload: &Payload) -> Option<Packet>
    ensures { result ≡ packet_with plain.now command payload.now }
{
    if !is_in_range(plain)
        || !is_laid_out(command.layout(), plain)
        || !is_filled(command, payload)
    {
        return None;
    }
    let _ = payload.as_slice();
    Some(Packet {
        command,
        tag: plain.tag,
        address: plain.address,
        cube: plain.cube,
        slid: plain.slid,
        flag: plain.flag,
        errstat: plain.errstat,
        rtc: plain.rtc,
        seq: plain.seq,
        frp: plain.frp,
        poisoned: plain.poisoned,
        payload: *payload,
    })
}

// The packet that the numbers name, if they are one.
fn packet_named(plain: &PlainPacket) -> Option<Packet>
    ensures { result ≡ packet_named plain.now }
{
    let command = Command::from_code(plain.command)?;
    let payload = payload_of(plain)?;
    packet_with(plain, command, &payload)
}

// Whether a packet may be sent with this return pointer on a link of a profile.
fn fits_profile(profile: Profile, plain: &PlainPacket) -> bool
    ensures { result ≡ fits_profile profile plain.now }
{
    let most_errstat = match profile {
        Profile::One => 128,
        Profile::Two => 8,
    };
    let modulus = profile.modulus();
    let null = plain.command != 0 || plain.rrp == 0;
    plain.rrp < modulus && plain.frp < modulus && plain.errstat < most_errstat && null
}

/// The flits of the packet that the numbers name, as it is sent in profile two or one. `None` where
/// they are no packet, or one that doesn't fit the profile.
pub fn spell_plain(plain: &PlainPacket, two: bool) -> Option<ArrayVec<Flit, 17>>
    ensures { MatchOption result (spelled_by (profile_of two) plain.now ≡ None)
        (λ flits. spelled_by (profile_of two) plain.now ≡ Some flits.items) }
{
    let packet = packet_named(plain)?;
    let profile = profile_of(two);
    if !fits_profile(profile, plain) {
        return None;
    }
    Some(spell(&packet, plain.rrp, profile))
}
