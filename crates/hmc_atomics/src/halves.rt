//! Blocks of 16 bytes, their halves and their numbers.

ghost use Rattle.std.specs.Prelude.{◌≡◌, if◌then◌else◌};
ghost use Rattle.std.specs.Int.{w64, w128, from_le_bytes};
ghost use Rattle.hmc_atomics.specs.Act.{acted_block, acted_half};
ghost use Rattle.hmc_atomics.specs.Effects.{becomes, high, number_of_halves, low};
ghost use Rattle.hmc_atomics.specs.Halves.{block_half, with_half};

use hmc_codes::Acted;

/// The low half, or the high one.
pub fn half(block: [u8; 16], high: bool) -> [u8; 8]
    ensures { result ≡ block_half high block }
{
    let mut half = [0; 8];
    if high {
        half.copy_from_slice(&block[8..]);
    } else {
        half.copy_from_slice(&block[..8]);
    }
    half
}

/// The number of a half.
pub fn half_number(block: [u8; 16], high: bool) -> u64
    ensures { result ≡ from_le_bytes w64 (block_half high block) }
{
    u64::from_le_bytes(half(block, high))
}

/// The block with one half replaced.
pub fn with_half(block: [u8; 16], high: bool, half: [u8; 8]) -> [u8; 16]
    ensures { result ≡ with_half high block half }
{
    let mut new = block;
    if high {
        new[8..].copy_from_slice(&half);
    } else {
        new[..8].copy_from_slice(&half);
    }
    new
}

/// One half gets a new value. The answer is the old half and eight zero bytes.
pub fn half_becomes(block: [u8; 16], high: bool, value: u64, flag: bool) -> Acted
    ensures { result ≡ acted_half high block (becomes value flag) }
{
    let mut answer = [0; 16];
    answer[..8].copy_from_slice(&half(block, high));
    Acted {
        block: with_half(block, high, value.to_le_bytes()),
        answer,
        flag,
    }
}

/// The block gets a new value. The answer is the old block.
pub fn block_becomes(block: [u8; 16], value: u128, flag: bool) -> Acted
    ensures { result ≡ acted_block block (becomes value flag) }
{
    Acted {
        block: value.to_le_bytes(),
        answer: block,
        flag,
    }
}

/// A half gets a new value if the test passes, and else stays. The flag is the test.
pub fn half_replaced(block: [u8; 16], high: bool, passes: bool, value: u64) -> Acted
    ensures { result ≡ acted_half high block (becomes
        (if passes then value else from_le_bytes w64 (block_half high block)) passes) }
{
    let stays = half_number(block, high);
    half_becomes(block, high, if passes { value } else { stays }, passes)
}

/// The block gets a new value if the test passes, and else stays. The flag is the test.
pub fn block_replaced(block: [u8; 16], passes: bool, value: u128) -> Acted
    ensures { result ≡ acted_block block (becomes
        (if passes then value else from_le_bytes w128 block) passes) }
{
    let stays = u128::from_le_bytes(block);
    block_becomes(block, if passes { value } else { stays }, passes)
}

/// The low half of a number.
pub fn low_of(number: u128) -> u64
    ensures { result ≡ low number }
{
    (number % (1 << 64)) as u64
}

/// The high half of a number.
pub fn high_of(number: u128) -> u64
    ensures { result ≡ high number }
{
    (number >> 64) as u64
}

/// The number of two halves.
pub fn number_of_halves(low: u64, high: u64) -> u128
    ensures { result ≡ number_of_halves low high }
{
    u128::from(low) | u128::from(high) << 64
}
