//! The division, bit by bit in a register of 32 bits.

ghost use Rattle.std.specs.Prelude.{◌≡◌, ℕ, ◌<◌, ◌^◌, List, [], ◌∷◌, ◌++◌, false, length};
ghost use Rattle.hmc_crc.specs.Bits.{bits_below};
ghost use Rattle.hmc_crc.specs.Remainder.{plus, divide, divisor, zeros, remainder, crc_of};

/// The divisor below its leading x^32: bit k is the coefficient of x^k.
pub const POLYNOMIAL: u32 = 0x741B_8CD7;

/// The check of `bytes`, whose bit k is the coefficient of x^k in the remainder.
pub fn crc(bytes: &[u8]) -> u32
    ensures { result ≡ crc_of bytes.now }
{
    let mut register = 0;
    for byte in bytes {
        register = with_byte(register, *byte);
    }
    register
}

/// Does nothing. Its contract is that every check is a number of 32 bits, and that every remainder
/// has 32 coefficients.
pub fn check_is_a_word()
    ensures below { (bytes : List ℕ) → crc_of bytes < 2 ^ 32 }
    ensures coefficients { (bytes : List ℕ) → length (remainder bytes) ≡ 32 }
{}

// The register after the next byte, which is added onto its eight highest bits.
fn with_byte(register: u32, byte: u8) -> u32
    ensures { let added = plus (bits_below 8 byte) (bits_below 32 register) in
        bits_below 32 result ≡ divide divisor 8 (added ++ zeros 8) }
{
    eight_steps(register ^ (u32::from(byte) << 24))
}

fn eight_steps(start: u32) -> u32
    ensures { bits_below 32 result ≡ divide divisor 8 (bits_below 32 start ++ zeros 8) }
{
    let mut register = start;
    'steps: for _step in 0..u8::BITS {
        register = one_step(register);
    }
    register
}

// A step shifts the leading coefficient out; where it was one, the divisor is added.
fn one_step(register: u32) -> u32
    ensures { bits_below 32 result ≡ divide divisor 1 (bits_below 32 register ++ false ∷ []) }
{
    let shifted = register << 1;
    if register >> 31 == 1 {
        shifted ^ POLYNOMIAL
    } else {
        shifted
    }
}
