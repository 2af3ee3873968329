//! Steps that may fail, with any kind of fault.

ghost use Rattle.std.specs.Prelude.{◌≡◌, ◌<◌, Some, IfOk};
ghost use Rattle.hmc_text.specs.Words.{words_of};
ghost use Rattle.hmc_text.specs.Number.{below};
ghost use Rattle.hmc_text.specs.Reading.{Gives, or_fault, next_word, no_word, number_word};

use crate::number::number;
use crate::words::first_word;

/// The first word and the rest of the line. The fault is `missing` exactly where there is no word.
pub fn next_word<K: Copy>(missing: K, line: &[u8]) -> Result<(&[u8], &[u8]), K>
    ensures { Gives (λ p. (p.0.now, words_of p.1.now)) result
        (next_word missing (words_of line.now)) }
{
    match first_word(line) {
        Some(found) => Ok(found),
        None => Err(missing),
    }
}

/// The fault is `left_over` exactly where a word is left.
pub fn no_word<K: Copy>(left_over: K, line: &[u8]) -> Result<(), K>
    ensures { result ≡ no_word left_over (words_of line.now) }
{
    match first_word(line) {
        Some(_) => Err(left_over),
        None => Ok(()),
    }
}

// The number, if it is below the limit.
fn fitting<K: Copy>(beyond: K, limit: u64, number: u128) -> Result<u64, K>
    ensures value { result ≡ or_fault beyond (below limit (Some number)) }
    ensures small { IfOk result (λ n. n < limit) }
{
    if number < u128::from(limit) {
        Ok(number as u64)
    } else {
        Err(beyond)
    }
}

/// A number below the limit, and the rest of the line. The fault is `missing` exactly where there
/// is no word, `unread` where the word is no number, and `beyond` where the number isn't below the
/// limit.
#[tactic(auto, unfolding(crate::specs::Reading::number_word))]
pub fn number_word<K: Copy>(
    missing: K,
    unread: K,
    beyond: K,
    limit: u64,
    line: &[u8],
) -> Result<(u64, &[u8]), K>
    ensures value { Gives (λ p. (p.0, words_of p.1.now)) result
        (number_word missing unread beyond limit (words_of line.now)) }
    ensures small { IfOk result (λ p. p.0 < limit) }
{
    let (word, rest) = next_word(missing, line)?;
    let Some(number) = number(word) else {
        return Err(unread);
    };
    let number = fitting(beyond, limit, number)?;
    Ok((number, rest))
}
