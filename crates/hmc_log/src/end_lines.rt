//! The lines of the end of a log.

use std::marker::Model;

/// A block of 16 bytes.
#[derive(Clone, Copy)]
pub struct MemoryLine {
    /// The cube, which is one of the case.
    pub cube: u8,
    /// The address of the first byte: a multiple of 16 below the cube's capacity.
    pub address: u64,
    /// The bytes.
    pub bytes: [u8; 16],
}

/// A register that can be written.
#[derive(Clone, Copy)]
pub struct RegisterLine {
    /// The cube, which is one of the case.
    pub cube: u8,
    /// The number of the register, 4 to 15.
    pub number: u8,
    /// Its value.
    pub value: u32,
}

/// The end of a log. A block or a register that has no line is zero; a line may say so too.
#[derive(Drop)]
pub struct End {
    /// Blocks, cube by cube and by rising addresses: all that aren't zero.
    pub memory: Vec<MemoryLine>,
    /// Registers, cube by cube and by rising numbers: all that aren't zero.
    pub registers: Vec<RegisterLine>,
    /// Whether the network had drained.
    pub drained: bool,
}

impl Model for End {
    ghost use Rattle.hmc_log.specs.Log.{EndFields};

    ghost Value = { EndFields };

    ghost view = { λ e. record {
      memory = e.memory.items;
      registers = e.registers.items;
      drained = e.drained;
    } };
}
