//! One vault.

ghost use Rattle.std.specs.Prelude.{◌≡◌, ◌≢◌, ◌≤◌, ◌<◌, ◌^◌, ◌↔◌, List, [], ◌∷◌, ◌++◌, Option, All, IsTrue, IfOk, nat_lt, length, drop, map, replicate, slice_get, option_map};
ghost use Rattle.hmc_codes.specs.Limits.{most_bank_bits};
ghost use Rattle.hmc_serial.specs.Cube.{CubeState, cube_state_of};
ghost use Rattle.hmc_units.specs.Unit.{UnitFields};
ghost use Rattle.hmc_tokens.specs.Queue.{packets_of, size_of};
ghost use Rattle.hmc_vault.specs.Packets.{IsForBanks};
ghost use Rattle.hmc_vault.specs.Kept.{IsOpening, held_in};
ghost use Rattle.hmc_vault.specs.Vault.{IsVault, opening_vault, bank_at, held_by};
ghost use Rattle.hmc_vault.specs.Spread.{spread_says, spread_gives};
ghost use Rattle.hmc_vault.specs.Execute.{execute_says, execute_gives, cube_after, slots_after};

use crate::{Executed, Execution, Spread, execute_front_in, front_waits};
use hmc_codes::{Memory, Shape};
use hmc_memory::Banks;
use hmc_packet::Packet;
use hmc_registers::Registers;
use hmc_tokens::{Intake, Queue, shift_one};
use hmc_units::Workbench;
use std::alloc::Global;
use std::marker::Model;

/// The queues of a vault. Contracts see the lists of their packets and their size.
#[derive(Drop)]
pub struct Vault {
    vault_queue: Queue,
    banks: Vec<Queue>,
    answers: Queue,
}

impl Model for Vault {
    ghost use Rattle.hmc_vault.specs.Vault.{VaultFields};
    ghost use Rattle.hmc_vault.specs.Kept.{vault_of_queues, IsVaultOfQueues};

    ghost Value = { VaultFields };

    ghost view = { λ v. vault_of_queues v.vault_queue v.banks.items v.answers };

    ghost invariant = { λ v. IsVaultOfQueues v.vault_queue v.banks.items v.answers };
}

impl Vault {
    /// A vault of `2^bank_bits` banks. Each queue is empty and has room for this number of packets.
    /// `Memory` if out of memory.
    pub fn new(alloc: Global, bank_bits: u8, queue: u8) -> Result<Self, Memory>
        requires { bank_bits ≤ most_bank_bits }
        ensures { IfOk result (λ vault. vault ≡ opening_vault bank_bits queue) }
    {
        let vault_queue = Queue::new(alloc, queue)?;
        let answers = Queue::new(alloc, queue)?;
        let banks = empty_queues(alloc, 1 << bank_bits, queue)?;
        Ok(Vault {
            vault_queue,
            banks,
            answers,
        })
    }

    /// Does nothing. Its contract is what every vault keeps.
    pub fn invariant(&self)
        ensures { IsVault self.now }
    {
        let _ = &self.answers;
    }

    /// Whether the vault queue has room for a packet.
    pub fn enter_room(&self) -> bool
        ensures { IsTrue result ↔ (length self.now.vault_queue < self.now.size) }
    {
        has_room(&self.vault_queue)
    }

    /// Appends a request to a bank to the vault queue.
    pub fn put(&mut self, packet: &Packet)
        requires room { length self.old.vault_queue < self.old.size }
        requires request { IsForBanks packet.now }
        ensures { self.new ≡ record self.old {
          vault_queue = self.old.vault_queue ++ packet.now ∷ [];
        } }
    {
        self.vault_queue.put(packet);
    }

    /// The same, with the packet by value.
    pub fn enter(&mut self, packet: Packet)
        requires room { length self.old.vault_queue < self.old.size }
        requires request { IsForBanks packet }
        ensures { self.new ≡ record self.old { vault_queue = self.old.vault_queue ++ packet ∷ [] } }
    {
        self.put(&packet);
    }

    /// Moves the front of the vault queue to the queue of the bank that its address names. The
    /// shape is that of the cube.
    #[inline(always)]
    pub fn spread(&mut self, shape: Shape) -> Spread
        requires { length self.old.banks ≡ 2 ^ shape.bank_bits }
        ensures answer { result ≡ spread_says self.old shape }
        ensures gives { self.new ≡ spread_gives result self.old }

        // The number of banks and the size stay.
        ensures banks { length self.new.banks ≡ length self.old.banks }
        ensures size { self.new.size ≡ self.old.size }
    {
        if self.vault_queue.is_empty() {
            return Spread::Empty;
        }
        self.spread_front(shape)
    }

    // The same, where a packet is there to be moved.
    #[inline(never)]
    fn spread_front(&mut self, shape: Shape) -> Spread
        requires some { self.old.vault_queue ≢ [] }
        requires sized { length self.old.banks ≡ 2 ^ shape.bank_bits }
        ensures answer { result ≡ spread_says self.old shape }
        ensures gives { self.new ≡ spread_gives result self.old }
        ensures banks { length self.new.banks ≡ length self.old.banks }
        ensures size { self.new.size ≡ self.old.size }
    {
        let Some(front) = self.vault_queue.front_ref() else {
            unreachable!()
        };
        let bank = shape.spot(front.address).bank;
        if !has_room(&self.banks[usize::from(bank)]) {
            return Spread::Full;
        }
        self.move_front(bank)
    }

    // Moves the front of the vault queue to the queue of a bank, which has room for it.
    #[inline(never)]
    fn move_front(&mut self, bank: u8) -> Spread
        requires there { bank < length self.old.banks }
        requires room { length (bank_at self.old bank) < self.old.size }
        ensures answer { result ≡ Spread.Moved bank }
        ensures gives { self.new ≡ spread_gives (Spread.Moved bank) self.old }
    {
        let _ = shift_one(&mut self.vault_queue, &mut self.banks[usize::from(bank)]);
        Spread::Moved { bank }
    }

    /// Performs the request at the front of a bank's queue on the memory and the registers of the
    /// cube, and writes what was done into a place for it. Only a unit command asks the bench of
    /// logic units.
    #[inline(always)]
    pub fn execute_in<B: Workbench>(
        &mut self,
        bank: u8,
        banks: &mut Banks,
        registers: &mut Registers,
        bench: &mut B,
        execution: &mut Execution,
    )
        requires { bank < length self.old.banks }
        ensures answer { execution.new ≡ execute_says (bank_at self.old bank) self.old.answers
            self.old.size (cube_state_of banks.old registers.old) (B.slots bench.old) }
        ensures gives { self.new ≡ execute_gives bank execution.new self.old }
        ensures cube { cube_state_of banks.new registers.new
            ≡ cube_after execution.new (cube_state_of banks.old registers.old) (B.slots bench.old) }
        ensures slots { B.slots bench.new ≡ slots_after execution.new
            (cube_state_of banks.old registers.old) (B.slots bench.old) }
        ensures shape { banks.new.shape ≡ banks.old.shape }
        ensures empty { (execution.new ≡ Executed.Empty) ↔ (bank_at self.old bank ≡ []) }

        // The number of banks and the size stay.
        ensures banks { length self.new.banks ≡ length self.old.banks }
        ensures size { self.new.size ≡ self.old.size }
    {
        let waiting = &mut self.banks[usize::from(bank)];
        execute_front_in(
            waiting,
            &mut self.answers,
            banks,
            registers,
            bench,
            execution,
        )
    }

    /// The same, which returns what was done.
    pub fn execute<B: Workbench>(
        &mut self,
        bank: u8,
        banks: &mut Banks,
        registers: &mut Registers,
        bench: &mut B,
    ) -> Executed
        requires { bank < length self.old.banks }
        ensures answer { result ≡ execute_says (bank_at self.old bank) self.old.answers
            self.old.size (cube_state_of banks.old registers.old) (B.slots bench.old) }
        ensures gives { self.new ≡ execute_gives bank result self.old }
        ensures cube { cube_state_of banks.new registers.new
            ≡ cube_after result (cube_state_of banks.old registers.old) (B.slots bench.old) }
        ensures slots { B.slots bench.new
            ≡ slots_after result (cube_state_of banks.old registers.old) (B.slots bench.old) }
        ensures shape { banks.new.shape ≡ banks.old.shape }
        ensures empty { (result ≡ Executed.Empty) ↔ (bank_at self.old bank ≡ []) }

        // The number of banks and the size stay.
        ensures banks { length self.new.banks ≡ length self.old.banks }
        ensures size { self.new.size ≡ self.old.size }
    {
        let mut execution = Execution::new();
        self.execute_in(bank, banks, registers, bench, &mut execution);
        execution.executed()
    }

    /// Whether the queue of a bank is empty, and an execution by it would do nothing.
    pub fn bank_is_empty(&self, bank: u8) -> bool
        requires { bank < length self.now.banks }
        ensures { IsTrue result ↔ (bank_at self.now bank ≡ []) }
    {
        self.banks[usize::from(bank)].is_empty()
    }

    /// Whether the front of a bank's queue has an answer for which there is no room, and an
    /// execution by the bank would do nothing.
    pub fn bank_waits(&self, bank: u8) -> bool
        requires { bank < length self.now.banks }
        ensures { (cube : CubeState) (slots : List (Option UnitFields)) → IsTrue result
            ↔ (execute_says (bank_at self.now bank) self.now.answers self.now.size cube slots
            ≡ Executed.Full) }
    {
        front_waits(&self.banks[usize::from(bank)], &self.answers)
    }

    /// Whether the answers queue is empty.
    pub fn answers_are_empty(&self) -> bool
        ensures { IsTrue result ↔ (self.now.answers ≡ []) }
    {
        self.answers.is_empty()
    }

    /// The front of the answers queue, lent.
    pub fn lift_front_ref(&self) -> Option<&Packet>
        ensures { option_map (λ packet. packet.now) result ≡ slice_get self.now.answers 0 }
    {
        self.answers.front_ref()
    }

    /// The front of the answers queue.
    pub fn lift_front(&self) -> Option<Packet>
        ensures { result ≡ slice_get self.now.answers 0 }
    {
        self.lift_front_ref().copied()
    }

    /// Removes the front of the answers queue, if there is one.
    pub fn drop_lifted(&mut self)
        ensures { self.new ≡ record self.old { answers = drop 1 self.old.answers } }
    {
        self.answers.drop_front();
    }

    /// Removes the front of the answers queue and returns it.
    pub fn lift(&mut self) -> Option<Packet>
        ensures front { result ≡ slice_get self.old.answers 0 }
        ensures rest { self.new ≡ record self.old { answers = drop 1 self.old.answers } }
    {
        let front = self.lift_front();
        self.drop_lifted();
        front
    }

    /// The number of packets in all queues.
    pub fn held(&self) -> u32
        ensures held { result ≡ held_by self.now }
        ensures few { result < 2 ^ 13 }
    {
        self.vault_queue.used() + held_in(&self.banks) + self.answers.used()
    }
}

// Whether a queue has room for a packet.
fn has_room(queue: &Queue) -> bool
    ensures { result ≡ nat_lt (length (packets_of queue.now)) (size_of queue.now) }
{
    queue.used() < queue.size()
}

// This number of empty queues of a size.
fn empty_queues(alloc: Global, count: usize, size: u8) -> Result<Vec<Queue>, Memory>
    ensures empty { IfOk result (λ queues. map packets_of queues.items ≡ replicate count []) }
    ensures opening { IfOk result (λ queues. All (IsOpening size) queues.items) }
{
    let mut queues = Vec::with_capacity(alloc, count)?;
    for i in 0..count {
        queues.push(Queue::new(alloc, size)?)?;
    }
    Ok(queues)
}

// The number of packets in the queues of banks.
fn held_in(queues: &[Queue]) -> u32
    requires few { length queues.now ≤ 2 ^ most_bank_bits }
    requires small { All (λ queue. size_of queue < 2 ^ 8) queues.now }
    ensures held { result ≡ held_in queues.now }
    ensures small { result < 2 ^ 12 }
{
    let mut held = 0;
    for queue in queues {
        held += queue.used();
    }
    held
}
