//! One bank.

ghost use Rattle.std.specs.Prelude.{◌≡◌, ◌≤◌, ◌<◌, ◌+◌, ℕ, IfOk, length, replicate, slice_range};
ghost use Rattle.hmc_codes.specs.Bytes.{IsBytes};
ghost use Rattle.hmc_memory.specs.Banks.{written_bytes};

use hmc_codes::Memory;
use std::alloc::Global;
use std::marker::Model;

/// The bytes of one bank, row after row.
#[derive(Drop)]
pub struct Bank {
    bytes: Vec<u8>,
}

impl Model for Bank {
    ghost use Rattle.std.specs.Prelude.{ℕ, List};

    ghost Value = { List ℕ };

    ghost view = { λ b. b.bytes.items };
}

impl Bank {
    /// A bank of this number of zeros.
    pub fn new(alloc: Global, len: usize) -> Result<Self, Memory>
        ensures { IfOk result (λ bank. bank ≡ replicate len 0) }
    {
        Ok(Bank {
            bytes: vec![in alloc; 0; len]?,
        })
    }

    /// The 16 bytes at a place.
    pub fn get16(&self, place: usize) -> [u8; 16]
        requires { place + 16 ≤ length self.now }
        ensures { result ≡ slice_range self.now place (place + 16) }
    {
        let mut block = [0; 16];
        block.copy_from_slice(&self.bytes[place..place + 16]);
        block
    }

    /// Replaces the 16 bytes at a place.
    pub fn put16(&mut self, place: usize, block: [u8; 16])
        requires { place + 16 ≤ length self.old }
        ensures { self.new ≡ written_bytes self.old place block }
    {
        self.bytes[place..place + 16].copy_from_slice(&block);
    }
}
