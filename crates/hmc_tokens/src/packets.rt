//! The packets that an intake keeps.

ghost use Rattle.std.specs.Prelude.{◌≡◌, ◌≤◌, ◌<◌, ◌^◌, ◌↔◌, [], ◌∷◌, ◌++◌, IfOk, IsTrue, length, drop, slice_get, sum_by, option_map};
ghost use Rattle.hmc_packet.specs.Packet.{flits_of};

use crate::ring::{append, drop_first};
use circular_buffer::HeapCircularBuffer;
use hmc_codes::Memory;
use hmc_packet::Packet;
use std::alloc::Global;
use std::marker::Model;

/// Packets in their order, for which memory is reserved. Contracts see the list of them and the
/// number that there is room for.
#[derive(Drop)]
pub struct PacketList {
    packets: HeapCircularBuffer<Packet>,
    most: u16,
    // The flits of all packets.
    flits: u32,
}

impl Model for PacketList {
    ghost use Rattle.hmc_tokens.specs.Packets.{PacketListFields, AreKept};

    ghost Value = { PacketListFields };

    ghost view = { λ l. record { packets = l.packets.items; most = l.most } };

    ghost invariant = { λ l. AreKept l.packets.items l.most l.packets.capacity l.flits };
}

impl PacketList {
    /// No packets, and room for `most`.
    pub fn new(alloc: Global, most: u16) -> Result<Self, Memory>
        ensures packets { IfOk result (λ list. list.packets ≡ []) }
        ensures most { IfOk result (λ list. list.most ≡ most) }
    {
        let packets = HeapCircularBuffer::with_capacity(alloc, usize::from(most))?;
        Ok(PacketList {
            packets,
            most,
            flits: 0,
        })
    }

    /// The number of packets that there is room for.
    pub fn most(&self) -> u16
        ensures most { result ≡ self.now.most }
        ensures within { length self.now.packets ≤ self.now.most }
    {
        self.most
    }

    /// The number of packets.
    pub fn len(&self) -> u16
        ensures { result ≡ length self.now.packets }
    {
        self.packets.len() as u16
    }

    /// Whether there are none.
    pub fn is_empty(&self) -> bool
        ensures { IsTrue result ↔ (self.now.packets ≡ []) }
    {
        self.packets.is_empty()
    }

    /// The flits of all packets.
    pub fn flits(&self) -> u32
        ensures { result ≡ sum_by flits_of self.now.packets }
    {
        self.flits
    }

    /// The packet that has been there longest.
    pub fn front(&self) -> Option<&Packet>
        ensures { option_map (λ packet. packet.now) result ≡ slice_get self.now.packets 0 }
    {
        self.packets.front()
    }

    /// Appends a packet, for which there is room.
    pub fn push_back(&mut self, packet: &Packet)
        requires { length self.old.packets < self.old.most }
        ensures packets { self.new.packets ≡ self.old.packets ++ packet.now ∷ [] }
        ensures most { self.new.most ≡ self.old.most }
    {
        self.flits += u32::from(packet.flits());
        append(&mut self.packets, *packet);
    }

    /// Removes the front, if there is one.
    pub fn drop_front(&mut self)
        ensures rest { self.new.packets ≡ drop 1 self.old.packets }
        ensures most { self.new.most ≡ self.old.most }
    {
        let Some(front) = self.packets.front() else {
            return;
        };
        self.flits -= u32::from(front.flits());
        drop_first(&mut self.packets);
    }
}
