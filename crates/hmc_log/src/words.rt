//! The words of a log.

ghost use Rattle.std.specs.Prelude.{◌≡◌, ◌≤◌, ◌<◌, ◌+◌, ◌^◌, nat_le, length, IfOk, IfSome};
ghost use Rattle.hmc_codes.specs.Limits.{tags};
ghost use Rattle.hmc_text.specs.Reading.{Gives};
ghost use Rattle.hmc_text.specs.Words.{words_of};
ghost use Rattle.hmc_log.specs.Meaning.{number_word, tag_of, tag_word, wrong, block_of};
ghost use Rattle.hmc_entries.specs.ParseWords.{value_of};

use crate::LogKind;
use hex::FromHex;
use hmc_codes::TAGS;
use hmc_text::number::below;
use hmc_text::reading::{self, next_word};
use hmc_text::words::first_word;

/// A number below the limit, or else this kind of fault.
pub fn number_word(kind: LogKind, limit: u64, line: &[u8]) -> Result<(u64, &[u8]), LogKind>
    ensures value { Gives (λ p. (p.0, words_of p.1.now)) result
        (number_word kind limit (words_of line.now)) }
    ensures small { IfOk result (λ p. p.0 < limit) }
{
    reading::number_word(LogKind::Words, kind, kind, limit, line)
}

/// The same of a number below 256.
pub fn small_word(kind: LogKind, limit: u8, line: &[u8]) -> Result<(u8, &[u8]), LogKind>
    ensures value { Gives (λ p. (p.0, words_of p.1.now)) result
        (number_word kind limit (words_of line.now)) }
    ensures small { IfOk result (λ p. p.0 < limit) }
{
    let (number, rest) = number_word(kind, u64::from(limit), line)?;
    Ok((number as u8, rest))
}

// A tag, or a dash for none.
#[tactic(auto, unfolding(crate::specs::Meaning::tag_of))]
fn tag_of(word: &[u8]) -> Option<Option<u16>>
    ensures value { result ≡ tag_of word.now }
    ensures small { IfSome result (λ tag. IfSome tag (λ t. t < tags)) }
{
    if word == b"-".as_slice() {
        return Some(None);
    }
    let tag = below(u64::from(TAGS), word)?;
    Some(Some(tag as u16))
}

/// A tag, or a dash for none.
#[tactic(auto, unfolding(crate::specs::Meaning::tag_word))]
pub fn tag_word(line: &[u8]) -> Result<(Option<u16>, &[u8]), LogKind>
    ensures value { Gives (λ p. (p.0, words_of p.1.now)) result (tag_word (words_of line.now)) }
    ensures small { IfOk result (λ p. IfSome p.0 (λ t. t < tags)) }
{
    let (word, rest) = next_word(LogKind::Words, line)?;
    let Some(tag) = tag_of(word) else {
        return Err(LogKind::Tag);
    };
    Ok((tag, rest))
}

// Whether the line has so many words.
fn has_words(line: &[u8], least: u8) -> bool
    ensures { result ≡ nat_le least (length (words_of line.now)) }
{
    let mut left = line;
    'words: for at in 0..least {
        let Some((_, rest)) = first_word(left) else {
            return false;
        };
        left = rest;
    }
    true
}

/// What is wrong with words that can't be read: that they are too few or too many, or else this.
#[tactic(auto, unfolding(crate::specs::Meaning::wrong))]
pub fn wrong(kind: LogKind, least: u8, most: u8, line: &[u8]) -> LogKind
    requires { most < 255 }
    ensures { result ≡ wrong kind least most (words_of line.now) }
{
    if has_words(line, least) && !has_words(line, most + 1) {
        kind
    } else {
        LogKind::Words
    }
}

/// Sixteen bytes as 32 digits.
#[tactic(auto, unfolding(crate::specs::Meaning::block_of))]
pub fn block_of(word: &[u8]) -> Option<[u8; 16]>
    ensures { result ≡ block_of word.now }
{
    <[u8; 16]>::from_hex(word).ok()
}

/// The value of a register, of eight digits.
#[tactic(auto, unfolding(hmc_entries::specs::ParseWords::value_of))]
pub fn value_of(word: &[u8]) -> Option<u32>
    ensures { result ≡ value_of word.now }
{
    let bytes = <[u8; 4]>::from_hex(word).ok()?;
    Some(u32::from_be_bytes(bytes))
}
