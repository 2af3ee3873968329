//! All banks of a cube.

ghost use Rattle.std.specs.Prelude.{◌≡◌, ◌<◌, ◌+◌, ◌%◌, ◌*◌, IfOk, length, replicate, slice_range};
ghost use Rattle.hmc_codes.specs.Shape.{capacity_of, IsShape};
ghost use Rattle.hmc_memory.specs.Banks.{IsBanks, written_bytes};
ghost use Rattle.hmc_memory.specs.Kept.{slot_of, bank_place};

use crate::bank::Bank;
use hmc_codes::{Memory, Shape, Spot};
use std::alloc::Global;
use std::marker::Model;

/// The memory of a cube. Contracts see its shape and the list of its bytes in address order.
#[derive(Drop)]
pub struct Banks {
    shape: Shape,
    // The banks of one vault are neighbours.
    banks: Vec<Bank>,
}

impl Model for Banks {
    ghost use Rattle.hmc_memory.specs.Banks.{BanksFields};
    ghost use Rattle.hmc_memory.specs.Kept.{memory_bytes, IsMemoryOfBanks};

    ghost Value = { BanksFields };

    ghost view = { λ b. record { shape = b.shape; bytes = memory_bytes b.shape b.banks.items } };

    ghost invariant = { λ b. IsMemoryOfBanks b.shape b.banks.items };
}

// The place of a byte.
#[derive(Clone, Copy)]
struct Slot {
    // The bank's place among the banks.
    bank: usize,
    // The byte's place in the bank.
    place: usize,
}

impl Slot {
    fn of(shape: &Shape, address: u64) -> Self
        requires { address < capacity_of shape.now }
        ensures bank { result.bank ≡ slot_of shape.now address }
        ensures place { result.place ≡ bank_place shape.now address }
    {
        let Spot {
            offset,
            vault,
            bank,
            row,
        } = shape.spot(address);
        Slot {
            bank: usize::from(vault) * (1 << shape.bank_bits) + usize::from(bank),
            place: row as usize * usize::from(shape.block) + usize::from(offset),
        }
    }
}

impl Banks {
    /// A memory of this shape. All its bytes are zero. `Memory` if out of memory.
    pub fn new(alloc: Global, shape: Shape) -> Result<Self, Memory>
        ensures shape { IfOk result (λ banks. banks.shape ≡ shape) }
        ensures zeros { IfOk result (λ banks. banks.bytes ≡ replicate (capacity_of shape) 0) }
    {
        let len = usize::from(shape.rows) * usize::from(shape.block);
        let count = (1usize << shape.vault_bits) * (1 << shape.bank_bits);
        let banks = zeros(alloc, count, len)?;
        Ok(Banks { shape, banks })
    }

    /// Does nothing. Its contract is what every memory keeps.
    pub fn invariant(&self)
        ensures { IsBanks self.now }
    {
        let _ = &self.shape;
    }

    /// The shape that `new` was given.
    pub fn shape(&self) -> Shape
        ensures { result ≡ self.now.shape }
    {
        self.shape
    }

    /// The 16 bytes at a multiple of 16.
    pub fn get16(&self, place: u64) -> [u8; 16]
        requires multiple { place % 16 ≡ 0 }
        requires inside { place < capacity_of self.now.shape }
        ensures { result ≡ slice_range self.now.bytes place (place + 16) }
    {
        let slot = Slot::of(&self.shape, place);
        self.banks[slot.bank].get16(slot.place)
    }

    /// Replaces the 16 bytes at a multiple of 16.
    pub fn put16(&mut self, place: u64, block: [u8; 16])
        requires multiple { place % 16 ≡ 0 }
        requires inside { place < capacity_of self.old.shape }
        ensures shape { self.new.shape ≡ self.old.shape }
        ensures bytes { self.new.bytes ≡ written_bytes self.old.bytes place block }
    {
        let slot = Slot::of(&self.shape, place);
        self.banks[slot.bank].put16(slot.place, block);
    }
}

// This number of banks, each of this number of zeros.
fn zeros(alloc: Global, count: usize, len: usize) -> Result<Vec<Bank>, Memory>
    ensures { IfOk result (λ banks. banks.items ≡ replicate count (replicate len 0)) }
{
    let mut banks = Vec::with_capacity(alloc, count)?;
    for i in 0..count {
        banks.push(Bank::new(alloc, len)?)?;
    }
    Ok(banks)
}
