//! Requests as packets.

ghost use Rattle.std.specs.Prelude.{◌≡◌, ◌<◌, ◌≤◌, ◌^◌, ◌↔◌, IsSome, length};
ghost use Rattle.hmc_codes.specs.Commands.{family_of};
ghost use Rattle.hmc_codes.specs.declared.family.Family.TheVariants as families;
ghost use Rattle.hmc_codes.specs.declared.command.Command.TheVariants.{Mdwr};
ghost use Rattle.hmc_packet.specs.Transactions.{with_zeros, request_packet, payload_of, request_in};

use crate::Packet;
use hmc_codes::{Command, Layout, Payload, Request};

/// The packet of a request: RTC, SEQ and FRP are zero until it is sent.
///
/// The tag is below 2,048; `slid` is the number of the host link, below 8.
#[tactic(auto, unfolding(crate::specs::Transactions::request_packet))]
pub fn ask(request: &Request, tag: u16, slid: u8, poisoned: bool) -> Packet
    requires tag { tag < 2 ^ 11 }
    requires slid { slid < 8 }
    ensures { result ≡ request_packet request.now tag slid poisoned }
{
    Packet {
        command: request.command,
        tag,
        address: request.address,
        cube: request.cube,
        slid,
        flag: false,
        errstat: 0,
        rtc: 0,
        seq: 0,
        frp: 0,
        poisoned,
        payload: request.payload,
    }
}

/// Four bytes and twelve zero bytes.
#[tactic(auto, unfolding(crate::specs::Transactions::with_zeros))]
pub fn with_zeros(front: &[u8]) -> Payload
    requires { length front.now ≡ 4 }
    ensures { result ≡ with_zeros front.now }
{
    let mut bytes = [0; 16];
    bytes[..4].copy_from_slice(front);
    Payload::from_slice(&bytes).unwrap()
}

#[tactic(auto, unfolding(crate::specs::Transactions::payload_of))]
fn payload_of(command: Command, payload: &Payload) -> Payload
    requires { command ≡ Mdwr → 4 ≤ length payload.now }
    ensures { result ≡ payload_of command payload.now }
{
    match command {
        Command::Mdwr => with_zeros(&payload.as_slice()[..4]),
        _ => *payload,
    }
}

/// The request that a packet carries. Of an `mdwr` only the first four bytes of payload count.
#[tactic(auto, unfolding(crate::specs::Transactions::request_in))]
pub fn request_of(packet: &Packet) -> Option<Request>
    ensures exact { result ≡ request_in packet.now }
    ensures asks { IsSome result ↔ (family_of packet.now.command ≡ families.Ask) }
{
    match packet.command.layout() {
        Layout::Ask => Some(Request {
            command: packet.command,
            cube: packet.cube,
            address: packet.address,
            payload: payload_of(packet.command, &packet.payload),
        }),
        _ => None,
    }
}
