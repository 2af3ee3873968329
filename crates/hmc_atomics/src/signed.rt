//! Numbers as signed numbers in two's complement.

ghost use Rattle.std.specs.Prelude.{◌≡◌};
ghost use Rattle.std.specs.Int.{w64, w128};
ghost use Rattle.hmc_atomics.specs.Effects.{is_greater, overflows};

/// Whether the first is greater.
pub fn is_greater64(a: u64, b: u64) -> bool
    ensures { result ≡ is_greater w64 a b }
{
    a.cast_signed() > b.cast_signed()
}

/// Whether the first is greater.
pub fn is_greater128(a: u128, b: u128) -> bool
    ensures { result ≡ is_greater w128 a b }
{
    a.cast_signed() > b.cast_signed()
}

/// Whether the sum is out of 64 bits.
pub fn overflows64(a: u64, b: u64) -> bool
    ensures { result ≡ overflows w64 a b }
{
    a.cast_signed().checked_add(b.cast_signed()).is_none()
}

/// Whether the sum is out of 128 bits.
pub fn overflows128(a: u128, b: u128) -> bool
    ensures { result ≡ overflows w128 a b }
{
    a.cast_signed().checked_add(b.cast_signed()).is_none()
}
