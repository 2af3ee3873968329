//! The number of a case, as a word.

ghost use Rattle.std.specs.Prelude.{◌≡◌};
ghost use Rattle.hmc_make.specs.Word.{case_number};

use hmc_text::number::decimal;

/// The number that a word is: one to twenty decimal digits of a number below 2^64, leading zeros
/// among them. `None` if it is no such word.
#[tactic(auto, unfolding(crate::specs::Word::case_number))]
pub fn number_of(word: &str) -> Option<u64>
    ensures { result ≡ case_number word.now }
{
    u64::try_from(decimal(word.as_bytes())?).ok()
}
