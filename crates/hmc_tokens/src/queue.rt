//! Queues.

ghost use Rattle.std.specs.Prelude.{◌≤◌, length};

use crate::Intake;
use crate::packets::PacketList;
use hmc_codes::Memory;
use hmc_packet::Packet;
use std::alloc::Global;

/// An intake whose size is a number of packets: each costs 1.
#[derive(Drop)]
pub struct Queue {
    kept: PacketList,
    pub ghost within: { length kept.packets ≤ kept.most },
}

#[tactic(auto, using(crate::specs::Queue::all_cost_one))]
impl Intake for Queue {
    ghost use Rattle.hmc_tokens.specs.Queue.{packets_of, size_of, one, within_size};

    ghost packets = { packets_of };

    ghost size = { size_of };

    ghost cost = { λ _. one };

    ghost fits = { within_size };

    fn size(&self) -> u32 {
        u32::from(self.kept.most())
    }

    fn used(&self) -> u32 {
        u32::from(self.kept.len())
    }

    fn cost(&self, _packet: &Packet) -> u32 {
        1
    }

    fn front_ref(&self) -> Option<&Packet> {
        self.kept.front()
    }

    fn put(&mut self, packet: &Packet) {
        self.kept.push_back(packet);
    }

    fn drop_front(&mut self) {
        self.kept.drop_front();
    }
}

impl Queue {
    ghost use Rattle.std.specs.Prelude.{◌≡◌, ◌↔◌, [], IfOk, IsTrue};
    ghost use Rattle.hmc_tokens.specs.Queue.{packets_of, size_of};

    /// A queue for `packets` packets. It holds none.
    pub fn new(alloc: Global, packets: u8) -> Result<Self, Memory>
        ensures empty { IfOk result (λ queue. packets_of queue ≡ []) }
        ensures size { IfOk result (λ queue. size_of queue ≡ packets) }
    {
        let kept = PacketList::new(alloc, u16::from(packets))?;
        Ok(Queue { kept })
    }

    /// Whether it holds no packet.
    pub fn is_empty(&self) -> bool
        ensures { IsTrue result ↔ (packets_of self.now ≡ []) }
    {
        self.kept.is_empty()
    }
}
