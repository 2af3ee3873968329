//! The registers of one cube.

ghost use Rattle.std.specs.Prelude.{◌≡◌, ◌≤◌, ◌<◌, ◌↔◌, OnOk, OnErr, IsNone, slice_get, slice_set};
ghost use Rattle.hmc_registers.specs.Registers.{opening_registers, IsRegisters};

use hmc_codes::Shape;
use std::marker::Model;

/// The number of registers of a cube.
pub const REGISTERS: u64 = 16;

/// Registers below this number are not written.
pub const FIRST_SCRATCH: u64 = 4;

/// Why a register wasn't written.
#[derive(Clone, Copy, PartialEq, Eq)]
pub enum RegisterFault {
    /// There is no register with this number.
    NoRegister,
    /// The register holds the cube's number or a part of its shape.
    ReadOnly,
}

/// The registers of one cube. Contracts see the list of their values.
#[derive(Drop)]
pub struct Registers {
    values: [u32; 16],
}

impl Model for Registers {
    ghost use Rattle.std.specs.Prelude.{ℕ, List};
    ghost use Rattle.hmc_registers.specs.Registers.{IsRegisters};

    ghost Value = { List ℕ };

    ghost view = { λ r. r.values };

    ghost invariant = { λ r. IsRegisters r.values };
}

impl Registers {
    /// The cube's number, its shape's `vault_bits`, `bank_bits` and `rows`, and twelve zeros.
    #[tactic(auto, unfolding(crate::specs::Registers::opening_registers))]
    pub fn new(cube: u8, shape: Shape) -> Self
        ensures { result ≡ opening_registers cube shape }
    {
        let number = u32::from(cube);
        let vault_bits = u32::from(shape.vault_bits);
        let bank_bits = u32::from(shape.bank_bits);
        let rows = u32::from(shape.rows);
        Registers {
            values: [
                number, vault_bits, bank_bits, rows, 0, 0, 0, 0, 0, 0, 0, 0, 0, 0, 0, 0,
            ],
        }
    }

    /// Does nothing. Its contract is what all registers keep.
    pub fn invariant(&self)
        ensures { IsRegisters self.now }
    {
        let _ = &self.values;
    }

    /// The value of a register, or `None` if there is none with this number.
    pub fn read(&self, number: u64) -> Option<u32>
        ensures value { result ≡ slice_get self.now number }
        ensures none { IsNone result ↔ (16 ≤ number) }
    {
        if number < REGISTERS {
            Some(self.values[number as usize])
        } else {
            None
        }
    }

    /// Writes a register. `NoRegister` from number 16 on, `ReadOnly` for the numbers 0 to 3.
    pub fn write(&mut self, number: u64, value: u32) -> Result<(), RegisterFault>
        ensures ok { OnOk result (self.new ≡ slice_set self.old number value) }
        ensures err { OnErr result (self.new ≡ self.old) }
        ensures no_register { (result ≡ Err RegisterFault.NoRegister) ↔ (16 ≤ number) }
        ensures read_only { (result ≡ Err RegisterFault.ReadOnly) ↔ (number < 4) }
    {
        if number >= REGISTERS {
            return Err(RegisterFault::NoRegister);
        }
        if number < FIRST_SCRATCH {
            return Err(RegisterFault::ReadOnly);
        }
        self.values[number as usize] = value;
        Ok(())
    }
}
