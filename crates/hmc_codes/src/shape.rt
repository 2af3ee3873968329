//! The shape of a cube's memory.

ghost use Rattle.std.specs.Prelude.{◌≡◌};
ghost use Rattle.hmc_codes.specs.Shape.{
  capacity_of,
  offset_of,
  vault_of,
  bank_of,
  row_of,
  IsShape,
};

use std::marker::Model;

/// The numbers of vaults, banks and rows of a cube, and the bytes of a block, which fills a row.
#[derive(Clone, Copy, PartialEq, Eq)]
pub struct Shape {
    /// The cube has `2^vault_bits` vaults; 0 to 5.
    pub vault_bits: u8,
    /// Each vault has `2^bank_bits` banks; 0 to 4.
    pub bank_bits: u8,
    /// Rows of one block in each bank; 1 to 1,024.
    pub rows: u16,
    /// The bytes of a block; 32, 64, 128 or 256.
    pub block: u16,
}

impl Model for Shape {
    ghost use Rattle.hmc_codes.specs.Shape.{ShapeFields, IsShape};

    ghost Value = { ShapeFields };

    ghost view = { λ s. record {
      vault_bits = s.vault_bits;
      bank_bits = s.bank_bits;
      rows = s.rows;
      block = s.block;
    } };

    ghost invariant = { λ s. IsShape (view s) };

    ghost inverse = { λ s. record {
      vault_bits = s.vault_bits;
      bank_bits = s.bank_bits;
      rows = s.rows;
      block = s.block;
    } };
}

/// The place of an address. The row may be past the shape's rows.
#[derive(Clone, Copy, PartialEq, Eq)]
pub struct Spot {
    /// The byte in the block, below the block's size.
    pub offset: u16,
    /// The vault in the cube, below 32.
    pub vault: u8,
    /// The bank in the vault, below 16.
    pub bank: u8,
    /// The row in the bank.
    pub row: u64,
}

impl Shape {
    /// Does nothing. Its contract is what every shape keeps.
    pub fn invariant(&self)
        ensures { IsShape self.now }
    {
        let _ = &self.rows;
    }

    /// The number of bytes in a cube, 32 to 134,217,728.
    pub fn capacity(self) -> u64
        ensures { result ≡ capacity_of self }
    {
        u64::from(self.block)
            * (1 << self.vault_bits)
            * (1 << self.bank_bits)
            * u64::from(self.rows)
    }

    /// The address map: from the lowest bit on an address has the offset in a block of 32 to 256
    /// bytes (5 to 8 bits), then the bits of the vault, then those of the bank, and then the row.
    /// An address past the capacity has a vault and a bank too.
    pub fn spot(self, address: u64) -> Spot
        ensures offset { result.offset ≡ offset_of self address }
        ensures vault { result.vault ≡ vault_of self address }
        ensures bank { result.bank ≡ bank_of self address }
        ensures row { result.row ≡ row_of self address }
    {
        let vaults = 1 << self.vault_bits;
        let banks = 1 << self.bank_bits;
        let bytes = u64::from(self.block);
        let block = address / bytes;
        Spot {
            offset: (address % bytes) as u16,
            vault: (block % vaults) as u8,
            bank: (block / vaults % banks) as u8,
            row: block / vaults / banks,
        }
    }
}
