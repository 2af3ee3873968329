//! The queues of one cube.

ghost use Rattle.std.specs.Prelude.{◌≡◌, ◌<◌, ◌↔◌, ◌++◌, ◌∷◌, [], IsTrue, IfOk, All, nat_lt, true, length, drop, replicate, slice_get, slice_index_or, slice_set};
ghost use Rattle.std.specs.Prelude.{map, ◌*◌, ◌+◌, ◌^◌};
ghost use Rattle.hmc_tokens.specs.Queue.{packets_of};
ghost use Rattle.hmc_queues.specs.Kept.{IsOpening};
ghost use Rattle.hmc_queues.specs.Queues.{CubeQueuesFields, place_of, is_there, seats};

use crate::QueueName;
use hmc_codes::{Lift, Memory};
use hmc_packet::Packet;
use hmc_tokens::{Intake, Queue};
use std::alloc::Global;
use std::marker::Model;

/// The queues of one cube in one list: of each vault its requests, its answers, and the requests of
/// its banks; after the vaults, the requests and the answers of the registers. Contracts see the
/// list of their packets.
#[derive(Drop)]
pub struct CubeQueues {
    vaults: u8,
    banks: u8,
    size: u8,
    queues: Vec<Queue>,
}

impl Model for CubeQueues {
    ghost use Rattle.hmc_queues.specs.Queues.{CubeQueuesFields};
    ghost use Rattle.hmc_queues.specs.Kept.{view_of_queues, AreQueues};

    ghost Value = { CubeQueuesFields };

    ghost view = { λ r. view_of_queues r.vaults r.banks r.size r.queues.items };

    ghost invariant = { λ r. AreQueues r.vaults r.banks r.size r.queues.items };
}

#[tactic(auto, using(hmc_tokens::specs::Queue::all_cost_one))]
impl CubeQueues {
    /// Empty queues of a cube with so many vaults, and so many banks in each. Each queue has room
    /// for this number of packets. No other call takes memory.
    pub fn new(alloc: Global, vaults: u8, banks: u8, size: u8) -> Result<Self, Memory>
        ensures { IfOk result (λ queues. queues ≡ record {
          vaults = vaults;
          banks = banks;
          size = size;
          queues = replicate (seats vaults banks) [];
        }) }
    {
        let count = usize::from(vaults) * (usize::from(banks) + 2) + 2;
        let queues = empty_queues(alloc, count, size)?;
        Ok(CubeQueues {
            vaults,
            banks,
            size,
            queues,
        })
    }

    // The place in the list of the first queue of a vault, and of the first one after all vaults.
    fn place_of_vault(&self, vault: u8) -> usize
        ensures value { result ≡ vault * (self.now.banks + 2) }
        ensures few { result < 2 ^ 17 }
    {
        usize::from(vault) * (usize::from(self.banks) + 2)
    }

    /// The place of a queue in the list.
    pub fn place(&self, name: QueueName) -> usize
        ensures value { result ≡ place_of self.now name }
        ensures inside { is_there self.now name ≡ true → result < length self.now.queues }
    {
        match name {
            QueueName::Vault(vault) => self.place_of_vault(vault),
            QueueName::Bank(vault, bank) => self.place_of_vault(vault) + 2 + usize::from(bank),
            QueueName::Registers => self.place_of_vault(self.vaults),
            QueueName::Answers(Lift::Vault(vault)) => self.place_of_vault(vault) + 1,
            QueueName::Answers(Lift::Registers) => self.place_of_vault(self.vaults) + 1,
        }
    }

    /// Whether the queue at a place holds no packet.
    pub fn is_empty(&self, place: usize) -> bool
        requires { place < length self.now.queues }
        ensures { IsTrue result ↔ (slice_index_or self.now.queues place [] ≡ []) }
    {
        self.queues[place].is_empty()
    }

    /// Whether the queue at a place has room for a packet.
    pub fn has_room(&self, place: usize) -> bool
        requires { place < length self.now.queues }
        ensures { result ≡ nat_lt (length (slice_index_or self.now.queues place [])) self.now.size }
    {
        self.queues[place].used() < u32::from(self.size)
    }

    /// The packet that has been longest in the queue at a place.
    pub fn front(&self, place: usize) -> Option<Packet>
        requires { place < length self.now.queues }
        ensures { result ≡ slice_get (slice_index_or self.now.queues place []) 0 }
    {
        self.queues[place].front()
    }

    /// Appends a packet to the queue at a place.
    pub fn push(&mut self, place: usize, packet: Packet)
        requires inside { place < length self.old.queues }
        requires room { length (slice_index_or self.old.queues place []) < self.old.size }
        ensures { self.new ≡ record self.old {
          queues = slice_set self.old.queues place
              (slice_index_or self.old.queues place [] ++ packet ∷ []);
        } }
    {
        self.queues[place].take_in(packet);
    }

    /// Drops the front of the queue at a place, if it has one.
    pub fn pop(&mut self, place: usize)
        requires { place < length self.old.queues }
        ensures { self.new ≡ record self.old {
          queues = slice_set self.old.queues place
              (drop 1 (slice_index_or self.old.queues place []));
        } }
    {
        let _ = self.queues[place].take_out();
    }

    /// Whether no queue holds a packet.
    pub fn are_empty(&self) -> bool
        ensures { IsTrue result ↔ All (λ queue. queue ≡ []) self.now.queues }
    {
        are_empty(&self.queues)
    }
}

// Whether no queue holds a packet.
fn are_empty(queues: &[Queue]) -> bool
    ensures { IsTrue result ↔ All (λ queue. packets_of queue ≡ []) queues.now }
{
    queues.iter().all(|queue| queue.is_empty())
}

// So many empty queues of a size.
fn empty_queues(alloc: Global, count: usize, size: u8) -> Result<Vec<Queue>, Memory>
    ensures empty { IfOk result (λ queues. map packets_of queues.items ≡ replicate count []) }
    ensures opening { IfOk result (λ queues. All (IsOpening size) queues.items) }
{
    let mut queues = Vec::with_capacity(alloc, count)?;
    for i in 0..count {
        queues.push(Queue::new(alloc, size)?)?;
    }
    Ok(queues)
}
