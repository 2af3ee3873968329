//! Answers as packets.

ghost use Rattle.std.specs.Prelude.{◌≡◌, ◌<◌, ◌≤◌, ◌^◌, ◌↔◌, [], IsSome, false, length, take};
ghost use Rattle.hmc_codes.specs.Bytes.{IsBytes};
ghost use Rattle.hmc_codes.specs.Commands.{family_of};
ghost use Rattle.hmc_codes.specs.declared.command.Command.TheVariants.{MdRdRs};
ghost use Rattle.hmc_codes.specs.declared.family.Family.TheVariants as families;
ghost use Rattle.hmc_packet.specs.Packet.{IsPacket};
ghost use Rattle.hmc_packet.specs.Spelling.{half_bytes};
ghost use Rattle.hmc_packet.specs.Parts.{half_of};
ghost use Rattle.hmc_codes.specs.Answer.{CanReply};
ghost use Rattle.hmc_packet.specs.Transactions.{with_zeros, response, reply_packet, answer_in};

use crate::Packet;
use crate::reading::half_of;
use crate::request::with_zeros;
use crate::spelling::bytes_of_half;
use hmc_codes::{Answer, Command, Payload};

/// Where a response comes from and where it goes.
#[derive(Clone, Copy)]
struct Way {
    tag: u16,
    slid: u8,
    cube: u8,
}

// Each number of the payload is a byte: that is a clause of its slice.
fn response(command: Command, flag: bool, errstat: u8, payload: &Payload, way: Way) -> Packet
    requires { IsBytes payload.now
        → IsPacket (response command flag errstat payload.now way.tag way.slid way.cube) }
    ensures { result ≡ response command flag errstat payload.now way.tag way.slid way.cube }
{
    let _ = payload.as_slice();
    Packet {
        command,
        tag: way.tag,
        address: 0,
        cube: way.cube,
        slid: way.slid,
        flag,
        errstat,
        rtc: 0,
        seq: 0,
        frp: 0,
        poisoned: false,
        payload: *payload,
    }
}

fn bare_response(command: Command, flag: bool, errstat: u8, way: Way) -> Packet
    requires { IsPacket (response command flag errstat [] way.tag way.slid way.cube) }
    ensures { result ≡ response command flag errstat [] way.tag way.slid way.cube }
{
    response(command, flag, errstat, &Payload::empty(), way)
}

fn payload_of_register(value: u32) -> Payload
    ensures { result ≡ with_zeros (half_bytes value) }
{
    with_zeros(&bytes_of_half(value))
}

fn register_response(value: u32, way: Way) -> Packet
    requires { IsPacket
        (response MdRdRs false 0 (with_zeros (half_bytes value)) way.tag way.slid way.cube) }
    ensures { result
        ≡ response MdRdRs false 0 (with_zeros (half_bytes value)) way.tag way.slid way.cube }
{
    response(Command::MdRdRs, false, 0, &payload_of_register(value), way)
}

/// The packet of an answer: RTC, SEQ and FRP are zero until it is sent.
///
/// The answer isn't Silent, what was read is 16 to 128 bytes in steps of 16 or 256 bytes, and an
/// errstat is below 128. The tag is below 2,048; the host link `slid` and the cube that answers are
/// below 8.
#[tactic(auto, unfolding(crate::specs::Transactions::reply_packet))]
pub fn reply(answer: &Answer, tag: u16, slid: u8, cube: u8) -> Packet
    requires answer { CanReply answer.now }
    requires tag { tag < 2 ^ 11 }
    requires slid { slid < 8 }
    requires cube { cube < 8 }
    ensures { result ≡ reply_packet answer.now tag slid cube }
{
    let way = Way { tag, slid, cube };
    match answer {
        Answer::Silent => Packet::null(),
        Answer::Done { flag } => bare_response(Command::WrRs, *flag, 0, way),
        Answer::Read { flag, payload } => response(Command::RdRs, *flag, 0, payload, way),
        Answer::Register { value } => register_response(*value, way),
        Answer::Stored => bare_response(Command::MdWrRs, false, 0, way),
        Answer::Refused { errstat } => bare_response(Command::Error, false, *errstat, way),
    }
}

fn value_in(payload: &Payload) -> u32
    requires { 4 ≤ length payload.now }
    ensures { result ≡ half_of (take 4 payload.now) }
{
    half_of(&payload.as_slice()[..4])
}

#[tactic(auto, unfolding(crate::specs::Transactions::answer_in, crate::specs::Transactions::answer_by))]
fn answer_in(packet: &Packet) -> Option<Answer>
    ensures { result ≡ answer_in packet.now }
{
    match packet.command {
        Command::WrRs => Some(Answer::Done { flag: packet.flag }),
        Command::RdRs => Some(Answer::Read {
            flag: packet.flag,
            payload: packet.payload,
        }),
        Command::MdRdRs => Some(Answer::Register {
            value: value_in(&packet.payload),
        }),
        Command::MdWrRs => Some(Answer::Stored),
        Command::Error => Some(Answer::Refused {
            errstat: packet.errstat,
        }),
        _ => None,
    }
}

/// The answer that a packet carries.
pub fn answer_of(packet: &Packet) -> Option<Answer>
    ensures exact { result ≡ answer_in packet.now }
    ensures replies { IsSome result ↔ (family_of packet.now.command ≡ families.Reply) }
{
    answer_in(packet)
}
