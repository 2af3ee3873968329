//! Packets.

ghost use Rattle.std.specs.Prelude.{◌≡◌, ◌≤◌};
ghost use Rattle.hmc_packet.specs.Packet.{IsPacket, flits_of, null_packet};

use hmc_codes::{Command, Payload};
use std::marker::Model;

/// A packet without its return pointer, which is put in when it is sent.
///
/// A field that the command's layout lacks is zero.
#[derive(Clone, Copy)]
pub struct Packet {
    pub command: Command,
    /// Below 2,048.
    pub tag: u16,
    /// Below 2^34.
    pub address: u64,
    /// The cube that is asked or that answers, below 8.
    pub cube: u8,
    /// The host link that a request came from or that a response goes to, below 8.
    pub slid: u8,
    /// AF of a response: whether an atomic command's condition held.
    pub flag: bool,
    /// The error number of a response, below 128.
    pub errstat: u8,
    /// The code of the tokens that are returned, below 8.
    pub rtc: u8,
    /// The sequence number, below 8.
    pub seq: u8,
    /// The forward retry pointer, below 2,048, and in profile One below 512.
    pub frp: u16,
    /// Whether its check is the inverse of the right one.
    pub poisoned: bool,
    /// Whole flits, as many as the command allows beside the one of header and tail.
    pub payload: Payload,
}

impl Model for Packet {
    ghost use Rattle.hmc_packet.specs.Packet.{PacketFields, IsPacket};

    ghost Value = { PacketFields };

    ghost view = { λ p. record {
      command = p.command;
      tag = p.tag;
      address = p.address;
      cube = p.cube;
      slid = p.slid;
      flag = p.flag;
      errstat = p.errstat;
      rtc = p.rtc;
      seq = p.seq;
      frp = p.frp;
      poisoned = p.poisoned;
      payload = p.payload;
    } };

    ghost invariant = { λ p. IsPacket (view p) };

    ghost inverse = { λ p. record {
      command = p.command;
      tag = p.tag;
      address = p.address;
      cube = p.cube;
      slid = p.slid;
      flag = p.flag;
      errstat = p.errstat;
      rtc = p.rtc;
      seq = p.seq;
      frp = p.frp;
      poisoned = p.poisoned;
      payload = p.payload;
    } };
}

impl Packet {
    /// Nothing is done: what every packet keeps is the contract.
    pub fn invariant(&self)
        ensures { IsPacket self.now }
    {
        let _ = &self.command;
    }

    /// The length in flits, 1 to 17.
    pub fn flits(&self) -> u8
        ensures value { result ≡ flits_of self.now }
        ensures some { 1 ≤ result }
        ensures few { result ≤ 17 }
    {
        (1 + self.payload.len() / 16) as u8
    }

    /// A packet that has a command and a forward pointer alone: one between the ends of a link.
    pub fn flow(command: Command, frp: u16) -> Self
        requires { IsPacket (record null_packet { command = command; frp = frp }) }
        ensures { result ≡ record null_packet { command = command; frp = frp } }
    {
        Packet {
            command,
            tag: 0,
            address: 0,
            cube: 0,
            slid: 0,
            flag: false,
            errstat: 0,
            rtc: 0,
            seq: 0,
            frp,
            poisoned: false,
            payload: Payload::empty(),
        }
    }

    /// A NULL: what a link sends where it has nothing to send.
    pub fn null() -> Self
        ensures { result ≡ null_packet }
    {
        Packet::flow(Command::Null, 0)
    }
}
