//! Why a text can't be read.

ghost use Rattle.std.specs.Prelude.{◌≡◌};
ghost use Rattle.hmc_text.specs.declared.fault.TextFault.TheVariants as faults;

use hmc_codes::Memory;
use std::alloc::AllocError;

/// Why a text can't be read. `K` is what can be wrong with a line.
#[derive(Clone, Copy, PartialEq, Eq)]
pub enum TextFault<K> {
    /// Out of memory.
    Memory,
    /// The first fault: its line, counted from 1, and what is wrong there.
    Fault { line: u32, kind: K },
}

impl<K> From<Memory> for TextFault<K> {
    ghost from_gives = { λ _ fault. fault ≡ faults.Memory };

    fn from(_: Memory) -> Self {
        TextFault::Memory
    }
}

impl<K> From<AllocError> for TextFault<K> {
    ghost from_gives = { λ _ fault. fault ≡ faults.Memory };

    fn from(_: AllocError) -> Self {
        TextFault::Memory
    }
}
