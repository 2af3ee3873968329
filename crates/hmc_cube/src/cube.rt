//! One cube.

ghost use Rattle.std.specs.Prelude.{◌≡◌, ◌≤◌, ◌<◌, ◌+◌, ◌%◌, ◌^◌, ◌↔◌, List, [], Option, IsTrue, IfOk, All, length, replicate, slice_get, slice_range, sum_by, option_map};
ghost use Rattle.hmc_codes.specs.Limits.{most_vault_bits, most_bank_bits};
ghost use Rattle.hmc_codes.specs.Shape.{capacity_of};
ghost use Rattle.hmc_units.specs.Unit.{UnitFields};
ghost use Rattle.hmc_vault.specs.Packets.{IsForBanks};
ghost use Rattle.hmc_vault.specs.Vault.{opening_vault, bank_at, held_by};
ghost use Rattle.hmc_vault.specs.Spread.{spread_says};
ghost use Rattle.hmc_vault.specs.Execute.{slots_after};
ghost use Rattle.hmc_cube.specs.Cube.{opening_cube, vault_at, held_in_cube};
ghost use Rattle.hmc_cube.specs.Places.{IsForRegisters, IsHere, IsFor, HasLift, entrance, answers_at};
ghost use Rattle.hmc_cube.specs.After.{after_enter, after_spread, bank_says, after_execute, registers_say, after_registers, after_lift};

use hmc_codes::{Lift, Memory, Shape};
use hmc_crossbar::To;
use hmc_memory::Banks;
use hmc_packet::Packet;
use hmc_registers::Registers;
use hmc_tokens::{Intake, Queue};
use hmc_units::Workbench;
use hmc_vault::{Executed, Execution, Spread, Vault, execute_front_in};
use std::alloc::Global;
use std::marker::Model;

/// One cube. Contracts see its memory and registers, its vaults and the queues of the registers.
#[derive(Drop)]
pub struct Cube {
    banks: Banks,
    registers: Registers,
    vaults: Vec<Vault>,
    // The requests that wait for the registers, and their answers.
    register_queue: Queue,
    answers: Queue,
}

impl Model for Cube {
    ghost use Rattle.hmc_cube.specs.Cube.{CubeFields};
    ghost use Rattle.hmc_cube.specs.Kept.{cube_of_parts, IsCubeOfParts};

    ghost Value = { CubeFields };

    ghost view = { λ c.
        cube_of_parts c.banks c.registers c.vaults.items c.register_queue c.answers };

    ghost invariant = { λ c.
        IsCubeOfParts c.banks.shape c.vaults.items c.register_queue c.answers };
}

impl Cube {
    ghost use Rattle.hmc_cube.specs.Parts.{AreParts};

    /// A cube with this number and shape. Each queue is empty and has room for this number of
    /// packets. All its bytes are zero. `Memory` if out of memory.
    pub fn new(alloc: Global, number: u8, shape: Shape, queue: u8) -> Result<Self, Memory>
        ensures { IfOk result (λ cube. cube ≡ opening_cube number shape queue) }
    {
        shape.invariant();
        let registers = Registers::new(number, shape);
        let vaults = new_vaults(alloc, 1 << shape.vault_bits, shape.bank_bits, queue)?;
        let register_queue = Queue::new(alloc, queue)?;
        let answers = Queue::new(alloc, queue)?;
        let banks = Banks::new(alloc, shape)?;
        Ok(Cube {
            banks,
            registers,
            vaults,
            register_queue,
            answers,
        })
    }

    /// Does nothing. Its contract is what every cube keeps.
    pub fn invariant(&self)
        ensures { AreParts self.now }
    {
        self.banks.invariant();
        self.registers.invariant();
    }

    /// Whether a vault, or the queue of the registers, has room for a packet.
    pub fn room(&self, to: To) -> bool
        requires { IsHere self.now to }
        ensures { IsTrue result ↔ (length (entrance self.now to) < self.now.size) }
    {
        match to {
            To::Vault(vault) => self.vaults[usize::from(vault)].enter_room(),
            To::Registers => self.register_queue.used() < self.register_queue.size(),
            To::Port(_) | To::Nowhere => unreachable!(),
        }
    }

    /// Appends a request to a vault's queue, or to the queue of the registers.
    pub fn put(&mut self, to: To, packet: &Packet)
        requires here { IsHere self.old to }
        requires room { length (entrance self.old to) < self.old.size }
        requires request { IsFor to packet.now }
        ensures { self.new ≡ after_enter to packet.now self.old }
    {
        match to {
            To::Vault(vault) => self.enter_vault(vault, packet),
            To::Registers => self.enter_registers(packet),
            To::Port(_) | To::Nowhere => unreachable!(),
        }
    }

    /// The same, with the packet by value.
    pub fn enter(&mut self, to: To, packet: Packet)
        requires here { IsHere self.old to }
        requires room { length (entrance self.old to) < self.old.size }
        requires request { IsFor to packet }
        ensures { self.new ≡ after_enter to packet self.old }
    {
        self.put(to, &packet);
    }

    fn enter_vault(&mut self, vault: u8, packet: &Packet)
        requires here { vault < 2 ^ self.old.state.shape.vault_bits }
        requires room { length (entrance self.old (To.Vault vault)) < self.old.size }
        requires request { IsForBanks packet.now }
        ensures { self.new ≡ after_enter (To.Vault vault) packet.now self.old }
    {
        let vault = &mut self.vaults[usize::from(vault)];
        vault.put(packet);
    }

    fn enter_registers(&mut self, packet: &Packet)
        requires room { length self.old.register_queue < self.old.size }
        requires request { IsForRegisters packet.now }
        ensures { self.new ≡ after_enter To.Registers packet.now self.old }
    {
        self.register_queue.put(packet);
    }

    /// Moves the front of a vault's queue to the queue of its bank.
    #[inline(always)]
    pub fn spread(&mut self, vault: u8) -> Spread
        requires { vault < 2 ^ self.old.state.shape.vault_bits }
        ensures answer { result ≡ spread_says (vault_at self.old vault) self.old.state.shape }
        ensures leaves { self.new ≡ after_spread vault result self.old }
        ensures shape { self.new.state.shape ≡ self.old.state.shape }
    {
        let shape = self.banks.shape();
        let vault = &mut self.vaults[usize::from(vault)];
        vault.spread(shape)
    }

    /// Performs the request at the front of a bank's queue, and writes what was done into a place
    /// for it. Only a unit command asks the bench of logic units.
    #[inline(always)]
    pub fn execute_in<B: Workbench>(
        &mut self,
        vault: u8,
        bank: u8,
        bench: &mut B,
        execution: &mut Execution,
    )
        requires vault { vault < 2 ^ self.old.state.shape.vault_bits }
        requires bank { bank < 2 ^ self.old.state.shape.bank_bits }
        ensures answer { execution.new ≡ bank_says self.old (B.slots bench.old) vault bank }
        ensures leaves { self.new
            ≡ after_execute vault bank execution.new (B.slots bench.old) self.old }
        ensures slots { B.slots bench.new
            ≡ slots_after execution.new self.old.state (B.slots bench.old) }
        ensures shape { self.new.state.shape ≡ self.old.state.shape }
        ensures empty { (execution.new ≡ Executed.Empty)
            ↔ (bank_at (vault_at self.old vault) bank ≡ []) }
    {
        let vault = &mut self.vaults[usize::from(vault)];
        vault.execute_in(bank, &mut self.banks, &mut self.registers, bench, execution)
    }

    /// The same, which returns what was done.
    pub fn execute<B: Workbench>(&mut self, vault: u8, bank: u8, bench: &mut B) -> Executed
        requires vault { vault < 2 ^ self.old.state.shape.vault_bits }
        requires bank { bank < 2 ^ self.old.state.shape.bank_bits }
        ensures answer { result ≡ bank_says self.old (B.slots bench.old) vault bank }
        ensures leaves { self.new ≡ after_execute vault bank result (B.slots bench.old) self.old }
        ensures slots { B.slots bench.new
            ≡ slots_after result self.old.state (B.slots bench.old) }
        ensures shape { self.new.state.shape ≡ self.old.state.shape }
        ensures empty { (result ≡ Executed.Empty) ↔ (bank_at (vault_at self.old vault) bank ≡ []) }
    {
        let mut execution = Execution::new();
        self.execute_in(vault, bank, bench, &mut execution);
        execution.executed()
    }

    /// Whether the queue of a bank is empty, and an execution by it would do nothing.
    pub fn bank_is_empty(&self, vault: u8, bank: u8) -> bool
        requires vault { vault < 2 ^ self.now.state.shape.vault_bits }
        requires bank { bank < 2 ^ self.now.state.shape.bank_bits }
        ensures { IsTrue result ↔ (bank_at (vault_at self.now vault) bank ≡ []) }
    {
        self.vaults[usize::from(vault)].bank_is_empty(bank)
    }

    /// Whether the front of a bank's queue has an answer for which there is no room, and an
    /// execution by the bank would do nothing.
    pub fn bank_waits(&self, vault: u8, bank: u8) -> bool
        requires vault { vault < 2 ^ self.now.state.shape.vault_bits }
        requires bank { bank < 2 ^ self.now.state.shape.bank_bits }
        ensures { (slots : List (Option UnitFields)) → IsTrue result
            ↔ (bank_says self.now slots vault bank ≡ Executed.Full) }
    {
        self.vaults[usize::from(vault)].bank_waits(bank)
    }

    /// Whether the queue of the registers is empty, and an execution by them would do nothing.
    pub fn register_queue_is_empty(&self) -> bool
        ensures { IsTrue result ↔ (self.now.register_queue ≡ []) }
    {
        self.register_queue.is_empty()
    }

    /// Performs the request at the front of the registers' queue, and writes what was done into a
    /// place for it.
    #[inline(always)]
    pub fn registers_in<B: Workbench>(&mut self, bench: &mut B, execution: &mut Execution)
        ensures answer { execution.new ≡ registers_say self.old (B.slots bench.old) }
        ensures leaves { self.new ≡ after_registers execution.new (B.slots bench.old) self.old }
        ensures slots { B.slots bench.new
            ≡ slots_after execution.new self.old.state (B.slots bench.old) }
        ensures shape { self.new.state.shape ≡ self.old.state.shape }
        ensures empty { (execution.new ≡ Executed.Empty) ↔ (self.old.register_queue ≡ []) }
    {
        execute_front_in(
            &mut self.register_queue,
            &mut self.answers,
            &mut self.banks,
            &mut self.registers,
            bench,
            execution,
        )
    }

    /// The same, which returns what was done.
    pub fn registers<B: Workbench>(&mut self, bench: &mut B) -> Executed
        ensures answer { result ≡ registers_say self.old (B.slots bench.old) }
        ensures leaves { self.new ≡ after_registers result (B.slots bench.old) self.old }
        ensures slots { B.slots bench.new
            ≡ slots_after result self.old.state (B.slots bench.old) }
        ensures shape { self.new.state.shape ≡ self.old.state.shape }
        ensures empty { (result ≡ Executed.Empty) ↔ (self.old.register_queue ≡ []) }
    {
        let mut execution = Execution::new();
        self.registers_in(bench, &mut execution);
        execution.executed()
    }

    /// Whether there are no answers of a vault, or of the registers.
    pub fn answers_are_empty(&self, from: Lift) -> bool
        requires { HasLift self.now from }
        ensures { IsTrue result ↔ (answers_at self.now from ≡ []) }
    {
        match from {
            Lift::Vault(vault) => self.vaults[usize::from(vault)].answers_are_empty(),
            Lift::Registers => self.answers.is_empty(),
        }
    }

    /// The front of the answers of a vault, or of the registers, lent.
    pub fn lift_front_ref(&self, from: Lift) -> Option<&Packet>
        requires { HasLift self.now from }
        ensures { option_map (λ packet. packet.now) result ≡
            slice_get (answers_at self.now from) 0 }
    {
        match from {
            Lift::Vault(vault) => self.vaults[usize::from(vault)].lift_front_ref(),
            Lift::Registers => self.answers.front_ref(),
        }
    }

    /// The front of the answers of a vault, or of the registers.
    pub fn lift_front(&self, from: Lift) -> Option<Packet>
        requires { HasLift self.now from }
        ensures { result ≡ slice_get (answers_at self.now from) 0 }
    {
        self.lift_front_ref(from).copied()
    }

    /// Removes that front, if there is one.
    pub fn drop_lifted(&mut self, from: Lift)
        requires { HasLift self.old from }
        ensures { self.new ≡ after_lift from self.old }
    {
        match from {
            Lift::Vault(vault) => self.drop_from_vault(vault),
            Lift::Registers => self.drop_from_registers(),
        }
    }

    fn drop_from_vault(&mut self, vault: u8)
        requires { vault < 2 ^ self.old.state.shape.vault_bits }
        ensures { self.new ≡ after_lift (Lift.Vault vault) self.old }
    {
        let vault = &mut self.vaults[usize::from(vault)];
        vault.drop_lifted();
    }

    fn drop_from_registers(&mut self)
        ensures { self.new ≡ after_lift Lift.Registers self.old }
    {
        self.answers.drop_front();
    }

    /// Removes that front and returns it.
    pub fn lift(&mut self, from: Lift) -> Option<Packet>
        requires { HasLift self.old from }
        ensures front { result ≡ slice_get (answers_at self.old from) 0 }
        ensures leaves { self.new ≡ after_lift from self.old }
    {
        let front = self.lift_front(from);
        self.drop_lifted(from);
        front
    }

    /// The number of bytes, 32 to 134,217,728.
    pub fn capacity(&self) -> u64
        ensures { result ≡ capacity_of self.now.state.shape }
    {
        self.banks.shape().capacity()
    }

    /// The 16 bytes at a multiple of 16.
    pub fn get16(&self, place: u64) -> [u8; 16]
        requires multiple { place % 16 ≡ 0 }
        requires inside { place < capacity_of self.now.state.shape }
        ensures { result ≡ slice_range self.now.state.memory place (place + 16) }
    {
        self.banks.get16(place)
    }

    /// The value of a register, or `None` if there is none with this number.
    pub fn register(&self, number: u64) -> Option<u32>
        ensures { result ≡ slice_get self.now.state.registers number }
    {
        self.registers.read(number)
    }

    /// The number of packets in all queues.
    pub fn held(&self) -> u32
        ensures held { result ≡ held_in_cube self.now }
        ensures few { result < 2 ^ 21 }
    {
        held_in(&self.vaults) + self.register_queue.used() + self.answers.used()
    }
}

// This number of new vaults.
fn new_vaults(alloc: Global, count: usize, bank_bits: u8, queue: u8) -> Result<Vec<Vault>, Memory>
    requires { bank_bits ≤ most_bank_bits }
    ensures { IfOk result (λ vaults.
        vaults.items ≡ replicate count (opening_vault bank_bits queue)) }
{
    let mut vaults = Vec::with_capacity(alloc, count)?;
    for i in 0..count {
        vaults.push(Vault::new(alloc, bank_bits, queue)?)?;
    }
    Ok(vaults)
}

// The number of packets in vaults.
fn held_in(vaults: &[Vault]) -> u32
    requires { length vaults.now ≤ 2 ^ most_vault_bits }
    ensures held { result ≡ sum_by held_by vaults.now }
    ensures few { result < 2 ^ 20 }
{
    let mut held = 0;
    for vault in vaults {
        held += vault.held();
    }
    held
}
