//! The queues inside all cubes.

ghost use Rattle.std.specs.Prelude.{◌≡◌, ◌<◌, ◌↔◌, ◌++◌, ◌∷◌, [], IsTrue, IfOk, All, nat_lt, map, length, drop, slice_get};
ghost use Rattle.hmc_queues.specs.Queues.{CubeQueuesFields, IsQueue, packets_at, size_at, with_packets, opening_queues, AreEmpty};

use crate::QueueName;
use crate::cube_queues::CubeQueues;
use hmc_codes::Memory;
use hmc_packet::Packet;
use std::alloc::Global;
use std::marker::Model;

/// How many vaults a cube has, how many banks each of them, and for how many packets each queue has
/// room.
#[derive(Clone, Copy, PartialEq, Eq)]
pub struct QueuesSetup {
    /// The number of vaults.
    pub vaults: u8,
    /// The number of banks in each vault.
    pub banks: u8,
    /// The number of packets for which each queue has room.
    pub size: u8,
}

/// The queues inside all cubes. Contracts see the lists of their packets.
#[derive(Drop)]
pub struct Queues {
    cubes: Vec<CubeQueues>,
}

impl Model for Queues {
    ghost use Rattle.std.specs.Prelude.{List};
    ghost use Rattle.hmc_queues.specs.Queues.{CubeQueuesFields};

    ghost Value = { List CubeQueuesFields };

    ghost view = { λ r. r.cubes.items };
}

impl Queues {
    /// Empty queues of cubes. No other call takes memory.
    pub fn new(alloc: Global, setups: &[QueuesSetup]) -> Result<Self, Memory>
        ensures { IfOk result (λ queues. queues ≡ map opening_queues setups.now) }
    {
        let mut cubes = Vec::with_capacity(alloc, setups.len())?;
        for setup in setups {
            cubes.push(CubeQueues::new(alloc, setup.vaults, setup.banks, setup.size)?)?;
        }
        Ok(Queues { cubes })
    }

    /// Whether a queue holds no packet.
    pub fn is_empty(&self, cube: u8, name: QueueName) -> bool
        requires { IsQueue self.now cube name }
        ensures { IsTrue result ↔ (packets_at self.now cube name ≡ []) }
    {
        let queues = &self.cubes[usize::from(cube)];
        queues.is_empty(queues.place(name))
    }

    /// Whether a queue has room for a packet.
    pub fn has_room(&self, cube: u8, name: QueueName) -> bool
        requires { IsQueue self.now cube name }
        ensures { result ≡ nat_lt (length (packets_at self.now cube name)) (size_at self.now cube) }
    {
        let queues = &self.cubes[usize::from(cube)];
        queues.has_room(queues.place(name))
    }

    /// The packet that has been longest in a queue.
    pub fn front(&self, cube: u8, name: QueueName) -> Option<Packet>
        requires { IsQueue self.now cube name }
        ensures { result ≡ slice_get (packets_at self.now cube name) 0 }
    {
        let queues = &self.cubes[usize::from(cube)];
        queues.front(queues.place(name))
    }

    /// Appends a packet to a queue.
    pub fn push(&mut self, cube: u8, name: QueueName, packet: Packet)
        requires there { IsQueue self.old cube name }
        requires room { length (packets_at self.old cube name) < size_at self.old cube }
        ensures { self.new
            ≡ with_packets cube name (packets_at self.old cube name ++ packet ∷ []) self.old }
    {
        let queues = &mut self.cubes[usize::from(cube)];
        queues.push(queues.place(name), packet);
    }

    /// Drops the front of a queue, if it has one.
    pub fn pop(&mut self, cube: u8, name: QueueName)
        requires { IsQueue self.old cube name }
        ensures { self.new
            ≡ with_packets cube name (drop 1 (packets_at self.old cube name)) self.old }
    {
        let queues = &mut self.cubes[usize::from(cube)];
        queues.pop(queues.place(name));
    }

    /// Whether no queue holds a packet.
    pub fn are_empty(&self) -> bool
        ensures { IsTrue result ↔ All AreEmpty self.now }
    {
        self.cubes.iter().all(|queues| queues.are_empty())
    }
}
