//! Buffers of flits.

ghost use Rattle.std.specs.Prelude.{◌≤◌, sum_by};
ghost use Rattle.hmc_packet.specs.Packet.{flits_of};

use crate::Intake;
use crate::packets::PacketList;
use hmc_codes::Memory;
use hmc_packet::Packet;
use std::alloc::Global;

/// The input buffer of a link's end: an intake whose size is a number of flits, and in which each
/// packet costs its own flits.
#[derive(Drop)]
pub struct FlitBuffer {
    kept: PacketList,
    pub ghost within: { sum_by flits_of kept.packets ≤ kept.most },
}

impl Intake for FlitBuffer {
    ghost use Rattle.hmc_packet.specs.Packet.{flits_of};
    ghost use Rattle.hmc_tokens.specs.FlitBuffer.{packets_of, size_of, within_size};

    ghost packets = { packets_of };

    ghost size = { size_of };

    ghost cost = { λ _. flits_of };

    ghost fits = { within_size };

    fn size(&self) -> u32 {
        u32::from(self.kept.most())
    }

    fn used(&self) -> u32 {
        self.kept.flits()
    }

    fn cost(&self, packet: &Packet) -> u32 {
        u32::from(packet.flits())
    }

    fn front_ref(&self) -> Option<&Packet> {
        self.kept.front()
    }

    fn put(&mut self, packet: &Packet) {
        self.kept.push_back(packet);
    }

    fn drop_front(&mut self) {
        self.kept.drop_front();
    }
}

impl FlitBuffer {
    ghost use Rattle.std.specs.Prelude.{◌≡◌, ◌↔◌, [], IfOk, IsTrue};
    ghost use Rattle.hmc_tokens.specs.FlitBuffer.{packets_of, size_of};

    /// A buffer for `tokens` flits. It holds no packet.
    pub fn new(alloc: Global, tokens: u16) -> Result<Self, Memory>
        ensures empty { IfOk result (λ buffer. packets_of buffer ≡ []) }
        ensures size { IfOk result (λ buffer. size_of buffer ≡ tokens) }
    {
        let kept = PacketList::new(alloc, tokens)?;
        Ok(FlitBuffer { kept })
    }

    /// Whether it holds no packet.
    pub fn is_empty(&self) -> bool
        ensures { IsTrue result ↔ (packets_of self.now ≡ []) }
    {
        self.kept.is_empty()
    }
}
