//! Words that are taken from the front of a line, one after another.

ghost use Rattle.std.specs.Prelude.{◌≡◌, ◌<◌, IfSome};
ghost use Rattle.hmc_text.specs.Words.{words_of, first_word};
ghost use Rattle.hmc_words.specs.Taking.{Takes, take_number, take_this};

use hmc_text::number::below;
use hmc_text::words::first_word;
use std::marker::Model;

/// The words of a line that have not been taken yet. Contracts see the list of them.
#[derive(Drop)]
pub struct WordReader<'a> {
    left: &'a [u8],
}

impl<'a> Model for WordReader<'a> {
    ghost use Rattle.std.specs.Prelude.{ℕ, List};
    ghost use Rattle.hmc_text.specs.Words.{words_of};

    ghost Value = { List (List ℕ) };

    ghost view = { λ r. words_of r.left.now };
}

impl<'a> WordReader<'a> {
    /// All words of a line.
    pub fn of(line: &'a str) -> WordReader<'a>
        ensures { result ≡ words_of line.now }
    {
        WordReader {
            left: line.as_bytes(),
        }
    }

    /// The next word, if there is one.
    pub fn word(&mut self) -> Option<&'a [u8]>
        ensures { Takes (λ word. word.now) result self.new (first_word self.old) }
    {
        let (word, rest) = first_word(self.left)?;
        self.left = rest;
        Some(word)
    }

    /// The next word, if it is a number below the limit.
    #[tactic(auto, unfolding(crate::specs::Taking::take_number))]
    pub fn number(&mut self, limit: u64) -> Option<u64>
        ensures value { Takes (λ number. number) result self.new (take_number limit self.old) }
        ensures small { IfSome result (λ number. number < limit) }
    {
        let word = self.word()?;
        below(limit, word)
    }

    /// Whether this word comes next. It is taken then; else nothing is.
    pub fn is_next(&mut self, word: &[u8]) -> bool
        ensures found { result ≡ (take_this word.now self.old).0 }
        ensures left { self.new ≡ (take_this word.now self.old).1 }
    {
        let Some((first, rest)) = first_word(self.left) else {
            return false;
        };
        if first == word {
            self.left = rest;
            return true;
        }
        false
    }
}
