//! The lines of a text.

ghost use Rattle.std.specs.Prelude.{◌≡◌, ◌≤◌, ◌∷◌, length};
ghost use Rattle.std.specs.List.{position_or_len};
ghost use Rattle.hmc_text.specs.Lines.{is_line_feed, without_return, lines_of, lines_left, lines_after};
ghost use Rattle.hmc_text.specs.InTurn.{IsNextLine};

use memchr::memchr;
use std::marker::Model;

// The number of bytes before the first line feed.
fn line_len(text: &[u8]) -> usize
    ensures length { result ≡ position_or_len is_line_feed text.now }
    ensures few { result ≤ length text.now }
{
    memchr(b'\n', text).unwrap_or(text.len())
}

fn without_return(line: &[u8]) -> &[u8]
    ensures { result.now ≡ without_return line.now }
{
    match line {
        [front @ .., b'\r'] => front,
        _ => line,
    }
}

// The text after the line feed that `end` begins with, if it begins with one.
fn after_feed(end: &[u8]) -> Option<&[u8]>
    ensures { lines_left result ≡ lines_after end.now }
{
    match end {
        [_, rest @ ..] => Some(rest),
        [] => None,
    }
}

// The first line, without its end, and the text after its line feed, if it has one.
fn first_line(text: &[u8]) -> (&[u8], Option<&[u8]>)
    ensures { lines_of text.now ≡ result.0.now ∷ lines_left result.1 }
{
    let (line, end) = text.split_at(line_len(text));
    (without_return(line), after_feed(end))
}

/// The lines of a text that have not been read yet, and the number of the first of them.
#[derive(Drop)]
pub struct Lines<'a> {
    left: Option<&'a [u8]>,
    number: u32,
}

impl<'a> Model for Lines<'a> {
    ghost use Rattle.hmc_text.specs.Lines.{lines_left};
    ghost use Rattle.hmc_text.specs.InTurn.{Numbered};

    ghost Value = { Numbered };

    ghost view = { λ l. record { number = l.number; lines = lines_left l.left } };
}

impl<'a> Lines<'a> {
    /// All lines of a text, counted from 1.
    pub fn of(text: &'a str) -> Lines<'a>
        ensures { result ≡ record { number = 1; lines = lines_of text.now } }
    {
        Lines {
            left: Some(text.as_bytes()),
            number: 1,
        }
    }

    /// The next line and its number. Lines after line 4,294,967,295 have that number too.
    pub fn next_line(&mut self) -> Option<(u32, &'a [u8])>
        ensures { IsNextLine self.old result self.new }
    {
        let (line, rest) = first_line(self.left?);
        let number = self.number;
        self.left = rest;
        self.number = number.saturating_add(1);
        Some((number, line))
    }
}
