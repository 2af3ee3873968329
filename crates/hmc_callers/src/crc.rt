//! A caller of `hmc_crc`.

ghost use Rattle.std.specs.Prelude.{◌≡◌, ◌↔◌, ◌++◌, IsTrue};
ghost use Rattle.hmc_crc.specs.Remainder.{crc_of};

use hmc_crc::{crc_fast, crc_update};

/// Whether `check` is the check of a message that comes in two pieces. Nothing is copied.
pub fn is_check_of(check: u32, first: &[u8], second: &[u8]) -> bool
    ensures { IsTrue result ↔ (check ≡ crc_of (first.now ++ second.now)) }
{
    check == crc_update(crc_fast(first), second)
}
