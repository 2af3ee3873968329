//! From flits to a packet.

ghost use Rattle.std.specs.Prelude.{◌≡◌, ◌≤◌, ◌↔◌, ℕ, not, length, IfOk, IsTrue, Ok};
ghost use Rattle.hmc_codes.specs.Bytes.{IsBytes};
ghost use Rattle.hmc_codes.specs.Commands.{is_flow};
ghost use Rattle.hmc_packet.specs.Packet.{PacketFields, IsPacket};
ghost use Rattle.hmc_packet.specs.Spelling.{FitsProfile, spelling};
ghost use Rattle.hmc_codes.specs.Flit.{zero_flit};
ghost use Rattle.hmc_packet.specs.Parts.{word_of, half_of, header_in, payload_in, tail_in, check_in, lng_of};
ghost use Rattle.hmc_packet.specs.Reading.{is_null, is_null_alone, has_length, fitting, command_in, is_clean, poison_in, packet_from, poison_read, seen_in, judgement_of, read_of, IsSpelled};

use crate::header::Header;
use crate::tail::Tail;
use crate::{Bad, Packet, Seen};
use hmc_codes::{Command, Flit, Layout, Payload, Profile};
use hmc_crc::crc_fast;

#[tactic(auto, unfolding(crate::specs::Parts::word_of))]
fn word_of(bytes: &[u8]) -> u64
    requires { length bytes.now ≡ 8 }
    ensures { result ≡ word_of bytes.now }
{
    u64::from_le_bytes([
        bytes[0], bytes[1], bytes[2], bytes[3], bytes[4], bytes[5], bytes[6], bytes[7],
    ])
}

#[tactic(auto, unfolding(crate::specs::Parts::half_of))]
pub fn half_of(bytes: &[u8]) -> u32
    requires { length bytes.now ≡ 4 }
    ensures { result ≡ half_of bytes.now }
{
    u32::from_le_bytes([bytes[0], bytes[1], bytes[2], bytes[3]])
}

/// The word of a header: the first eight of at least 16 bytes, such as those of a first flit.
pub fn header_in(bytes: &[u8]) -> u64
    requires { 16 ≤ length bytes.now }
    ensures { result ≡ header_in bytes.now }
{
    word_of(&bytes[..8])
}

pub fn tail_in(bytes: &[u8]) -> u32
    requires { 16 ≤ length bytes.now }
    ensures { result ≡ tail_in bytes.now }
{
    let start = bytes.len() - 8;
    half_of(&bytes[start..][..4])
}

pub fn check_in(bytes: &[u8]) -> u32
    requires { 16 ≤ length bytes.now }
    ensures { result ≡ check_in bytes.now }
{
    half_of(&bytes[bytes.len() - 4..])
}

/// The length in flits that a packet's first flit names.
#[tactic(auto, unfolding(crate::specs::Parts::lng_of))]
pub fn lng_of(flit: &Flit) -> u8
    ensures { result ≡ lng_of flit.now }
{
    Header::flits_in(header_in(flit))
}

/// Whether a flit is a NULL.
#[tactic(auto, unfolding(crate::specs::Reading::is_null, hmc_codes::specs::Flit::zero_flit))]
pub fn is_null(flit: &Flit) -> bool
    ensures value { result ≡ is_null flit.now }
    ensures zeros { IsTrue result ↔ (flit.now ≡ zero_flit) }
{
    u128::from_le_bytes(*flit) == 0
}

#[tactic(auto, unfolding(crate::specs::Reading::is_null_alone))]
fn is_null_alone(flits: &[Flit]) -> bool
    ensures { result ≡ is_null_alone flits.now }
{
    match flits {
        [flit] => is_null(flit),
        _ => false,
    }
}

#[tactic(auto, unfolding(crate::specs::Reading::has_length))]
fn has_length(flits: &[Flit]) -> bool
    ensures { result ≡ has_length flits.now }
{
    match flits {
        [] => false,
        [flit, ..] => {
            let lng = lng_of(flit);
            (1 <= lng && lng <= 17) && flits.len() == usize::from(lng)
        }
    }
}

#[tactic(auto, unfolding(crate::specs::Reading::fitting))]
fn fitting(code: u8, lng: u8, found: Option<Command>) -> Option<Command>
    ensures { result ≡ fitting code lng found }
{
    match found {
        None => None,
        Some(command) => {
            if code != 0 && command.allows(lng) {
                Some(command)
            } else {
                None
            }
        }
    }
}

#[tactic(auto, unfolding(crate::specs::Reading::command_in))]
pub fn command_in(header: u64) -> Option<Command>
    ensures { result ≡ command_in header }
{
    let code = Header::code_in(header);
    fitting(code, Header::flits_in(header), Command::from_code(code))
}

#[tactic(auto, unfolding(crate::specs::Reading::is_clean))]
fn is_clean(profile: Profile, layout: Layout, bytes: &[u8]) -> bool
    requires { 16 ≤ length bytes.now }
    ensures { result ≡ is_clean profile layout bytes.now }
{
    Header::is_clean(layout, header_in(bytes)) && Tail::is_clean(profile, layout, tail_in(bytes))
}

// Whether a packet is a request or a response.
pub fn is_transaction(layout: Layout) -> bool
    ensures { result ≡ not (is_flow layout) }
{
    matches!(layout, Layout::Ask | Layout::Reply)
}

#[tactic(auto, unfolding(crate::specs::Reading::poison_in))]
fn poison_in(layout: Layout, check: u32, right: u32) -> Option<bool>
    ensures { result ≡ poison_in layout check right }
{
    let transaction = is_transaction(layout);
    if check == right {
        Some(false)
    } else if transaction && check == !right {
        Some(true)
    } else {
        None
    }
}

// Whether bytes of a layout are poisoned, or the first test of Reserved and Crc that fails.
fn poison_read(profile: Profile, layout: Layout, bytes: &[u8]) -> Result<bool, Bad>
    requires { 16 ≤ length bytes.now }
    ensures { result ≡ poison_read profile layout bytes.now }
{
    if !is_clean(profile, layout, bytes) {
        return Err(Bad::Reserved);
    }
    let right = crc_fast(&bytes[..bytes.len() - 4]);
    poison_in(layout, check_in(bytes), right).ok_or(Bad::Crc)
}

#[tactic(auto, unfolding(crate::specs::Reading::judgement_of))]
pub fn judgement_of(profile: Profile, bytes: &[u8]) -> Result<(Command, bool), Bad>
    requires { 16 ≤ length bytes.now }
    ensures { result ≡ judgement_of profile bytes.now }
{
    let command = command_in(header_in(bytes)).ok_or(Bad::Command)?;
    let poisoned = poison_read(profile, command.layout(), bytes)?;
    Ok((command, poisoned))
}

// The packet of bytes that pass the tests.
#[tactic(auto, unfolding(crate::specs::Reading::packet_from))]
fn packet_from(
    layout: Layout,
    command: Command,
    header: &Header,
    tail: &Tail,
    poisoned: bool,
    payload: &Payload,
) -> Packet
    requires { IsPacket (packet_from layout command header.now tail.now poisoned payload.now) }
    ensures { result ≡ packet_from layout command header.now tail.now poisoned payload.now }
{
    let slid = match layout {
        Layout::Reply => header.slid,
        _ => tail.slid,
    };
    Packet {
        command,
        tag: header.tag,
        address: header.address,
        cube: header.cube,
        slid,
        flag: header.flag,
        errstat: tail.errstat,
        rtc: tail.rtc,
        seq: tail.seq,
        frp: tail.frp,
        poisoned,
        payload: *payload,
    }
}

fn payload_in(bytes: &[u8]) -> Payload
    requires few { length bytes.now ≤ 272 }
    requires some { 16 ≤ length bytes.now }
    ensures { result ≡ payload_in bytes.now }
{
    let len = bytes.len() - 16;
    Payload::from_slice(&bytes[8..][..len]).unwrap()
}

#[tactic(auto, unfolding(crate::specs::Reading::seen_in))]
fn seen_in(profile: Profile, command: Command, poisoned: bool, bytes: &[u8]) -> Seen
    requires few { length bytes.now ≤ 272 }
    requires some { 16 ≤ length bytes.now }
    requires packet { IsPacket (seen_in profile command poisoned bytes.now).packet }
    ensures value { result ≡ seen_in profile command poisoned bytes.now }
    ensures are_bytes { IsBytes bytes.now }
{
    let layout = command.layout();
    let header = Header::unpack(layout, header_in(bytes));
    let tail = Tail::unpack(profile, layout, tail_in(bytes));
    let payload = payload_in(bytes);
    Seen {
        packet: packet_from(layout, command, &header, &tail, poisoned, &payload),
        rrp: tail.rrp,
    }
}

/// The packet and the return pointer that the flits spell, or the first test that they fail:
/// Length, Command, Reserved, Crc.
///
/// A NULL, one flit of 16 zero bytes, is read before any test.
#[tactic(auto, unfolding(crate::specs::Reading::read_of, crate::specs::Reading::bytes_read))]
pub fn read(flits: &[Flit], profile: Profile) -> Result<Seen, Bad>
    // The first test that fails.
    ensures exact { result ≡ read_of profile flits.now }
    // What is read is spelled so.
    ensures found { IfOk result (λ seen. IsSpelled profile flits.now seen) }
    // What is spelled so is read.
    ensures only { (p : PacketFields) (rrp : ℕ) → IsPacket p → FitsProfile profile p rrp →
        flits.now ≡ spelling profile p rrp →
        result ≡ Ok (record { packet = p; rrp = rrp }) }
{
    if is_null_alone(flits) {
        return Ok(Seen {
            packet: Packet::null(),
            rrp: 0,
        });
    }
    if !has_length(flits) {
        return Err(Bad::Length);
    }
    let bytes = flits.as_flattened();
    let (command, poisoned) = judgement_of(profile, bytes)?;
    Ok(seen_in(profile, command, poisoned, bytes))
}
