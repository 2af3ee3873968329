//! The operations.

ghost use Rattle.std.specs.Prelude.{◌≡◌};
ghost use Rattle.hmc_atomics.specs.Operations.{atomic_of, by_halves};

use hmc_codes::Command;

/// The operation of an atomic command. Posted and returning commands have that of the plain one.
#[derive(Clone, Copy, PartialEq, Eq)]
pub enum Atomic {
    /// Bits of a half are written where the operand's high half has them set.
    Bwr,
    /// One is added to a half.
    Inc8,
    /// Each half of the operand is added to the same half of the block.
    TwoAdd8,
    /// The operand is added to the block.
    Add16,
    /// Bits of the block are inverted where the operand has them set.
    Xor16,
    /// Bits of the block are set where the operand has them set.
    Or16,
    /// The complement of the result of `Or16`.
    Nor16,
    /// Bits of the block are cleared where the operand has them clear.
    And16,
    /// The complement of the result of `And16`.
    Nand16,
    /// The operand replaces the block.
    Swap16,
    /// The operand's high half replaces a half that equals its low half.
    CasEq8,
    /// The operand's low half replaces a half, if it is greater.
    CasGt8,
    /// The operand's low half replaces a half, if it is less.
    CasLt8,
    /// The operand replaces the block, if it is greater.
    CasGt16,
    /// The operand replaces the block, if it is less.
    CasLt16,
    /// The operand replaces a block of zeros.
    CasZero16,
    /// Whether a half equals the operand's low half.
    Eq8,
    /// Whether the block equals the operand.
    Eq16,
}

impl Atomic {
    /// The operation of a command, or `None` if it isn't atomic.
    #[tactic(auto, unfolding(crate::specs::Operations::atomic_of))]
    pub fn of(command: Command) -> Option<Self>
        ensures { result ≡ atomic_of command }
    {
        match command {
            Command::Bwr | Command::Pbwr | Command::Bwr8r => Some(Atomic::Bwr),
            Command::Inc8 | Command::Pinc8 => Some(Atomic::Inc8),
            Command::TwoAdd8 | Command::PtwoAdd8 | Command::TwoAdds8r => Some(Atomic::TwoAdd8),
            Command::Add16 | Command::Padd16 | Command::Adds16r => Some(Atomic::Add16),
            Command::Xor16 => Some(Atomic::Xor16),
            Command::Or16 => Some(Atomic::Or16),
            Command::Nor16 => Some(Atomic::Nor16),
            Command::And16 => Some(Atomic::And16),
            Command::Nand16 => Some(Atomic::Nand16),
            Command::Swap16 => Some(Atomic::Swap16),
            Command::Caseq8 => Some(Atomic::CasEq8),
            Command::Casgt8 => Some(Atomic::CasGt8),
            Command::Caslt8 => Some(Atomic::CasLt8),
            Command::Casgt16 => Some(Atomic::CasGt16),
            Command::Caslt16 => Some(Atomic::CasLt16),
            Command::Caszero16 => Some(Atomic::CasZero16),
            Command::Eq8 => Some(Atomic::Eq8),
            Command::Eq16 => Some(Atomic::Eq16),
            _ => None,
        }
    }

    /// Whether it acts on eight bytes, one half of a block.
    pub fn by_halves(self) -> bool
        ensures { result ≡ by_halves self }
    {
        matches!(
            self,
            Atomic::Bwr
                | Atomic::Inc8
                | Atomic::CasEq8
                | Atomic::CasGt8
                | Atomic::CasLt8
                | Atomic::Eq8
        )
    }
}
