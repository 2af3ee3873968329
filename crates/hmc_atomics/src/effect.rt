//! What an operation does to a block.

ghost use Rattle.std.specs.Prelude.{◌≡◌};
ghost use Rattle.hmc_atomics.specs.Act.{acted_of};

use crate::Atomic;
use crate::halves::{
    block_becomes, block_replaced, half_becomes, half_number, half_replaced, high_of, low_of,
    number_of_halves,
};
use crate::signed::{is_greater64, is_greater128, overflows64, overflows128};
use hmc_codes::Acted;

/// Performs an operation on a block with an operand. An operation on eight bytes acts on the high
/// or the low half of the block. The others ignore `high`.
#[tactic(auto, unfolding(crate::specs::Act::acted_of, crate::specs::Effects::effect_of))]
pub fn act(op: Atomic, high: bool, block: [u8; 16], operand: [u8; 16]) -> Acted
    ensures { result ≡ acted_of op high block operand }
{
    let h = half_number(block, high);
    let lo = half_number(operand, false);
    let hi = half_number(operand, true);
    let m = u128::from_le_bytes(block);
    let o = u128::from_le_bytes(operand);
    match op {
        Atomic::Bwr => half_becomes(block, high, (h & !hi) | (lo & hi), false),
        Atomic::Inc8 => half_becomes(block, high, h.wrapping_add(1), false),
        Atomic::TwoAdd8 => {
            let (first, last) = (low_of(m), high_of(m));
            let sums = number_of_halves(first.wrapping_add(lo), last.wrapping_add(hi));
            block_becomes(block, sums, overflows64(first, lo) | overflows64(last, hi))
        }
        Atomic::Add16 => block_becomes(block, m.wrapping_add(o), overflows128(m, o)),
        Atomic::Xor16 => block_becomes(block, m ^ o, false),
        Atomic::Or16 => block_becomes(block, m | o, false),
        Atomic::Nor16 => block_becomes(block, !(m | o), false),
        Atomic::And16 => block_becomes(block, m & o, false),
        Atomic::Nand16 => block_becomes(block, !(m & o), false),
        Atomic::Swap16 => block_becomes(block, o, false),
        Atomic::CasEq8 => half_replaced(block, high, h == lo, hi),
        Atomic::CasGt8 => half_replaced(block, high, is_greater64(lo, h), lo),
        Atomic::CasLt8 => half_replaced(block, high, is_greater64(h, lo), lo),
        Atomic::CasGt16 => block_replaced(block, is_greater128(o, m), o),
        Atomic::CasLt16 => block_replaced(block, is_greater128(m, o), o),
        Atomic::CasZero16 => block_replaced(block, m == 0, o),
        Atomic::Eq8 => half_becomes(block, high, h, h == lo),
        Atomic::Eq16 => block_becomes(block, m, m == o),
    }
}
