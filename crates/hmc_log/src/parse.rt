//! Logs are read.

ghost use Rattle.std.specs.Prelude.{◌≡◌, ◌<◌, ◌≤◌, true, ◌∷◌, length, codes, IfOk, OnOk};
ghost use Rattle.hmc_codes.specs.Limits.{most_cubes, most_hosts};
ghost use Rattle.hmc_text.specs.InTurn.{after_lines, at_line, Answers};
ghost use Rattle.hmc_text.specs.Words.{words_of};
ghost use Rattle.hmc_log.specs.Lines.{lines_in};
ghost use Rattle.hmc_log.specs.Progress.{progress_of, IsReading};
ghost use Rattle.hmc_log.specs.Text.{gave_line, took_line, retired_line, memory_line, register_line, state_line, entry_line, line_with, statement, after_line, with_end, log_of, is_entry_word, nothing_yet};

use crate::counts::{Counts, SLOTS};
use crate::end_read::{drained_of, memory_of, register_of};
use crate::entry_read::{given_of, slot_of, taken_of};
use crate::reading::{
    Reading, add_block, add_given, add_register, add_retired, add_taken, at, at_end,
};
use crate::{End, Log, LogFault, LogKind};
use hmc_codes::{MOST_HOSTS, MOST_REQUESTS, Memory, Shape};
use hmc_text::reading::next_word;
use std::alloc::Global;

/// The entries that a log has at most: the requests of each host and as many answers, and a
/// retirement for each slot.
const MOST_ENTRIES: usize = 2 * MOST_HOSTS as usize * MOST_REQUESTS as usize + SLOTS;

/// No line of an entry has fewer bytes.
const LEAST_LINE: usize = 10;

// A request is given.
#[tactic(auto, unfolding(crate::specs::Text::gave_line))]
fn gave_line(
    reading: &mut Reading,
    number: u32,
    hosts: u8,
    cubes: u8,
    text: &str,
    rest: &[u8],
) -> Result<(), LogFault>
    requires reading { IsReading reading.old }
    requires hosts { hosts ≤ most_hosts }
    requires first { words_of text.now ≡ codes "gave" ∷ words_of rest.now }
    ensures value { Answers (λ _. progress_of reading.new) result (at_line number
        (gave_line hosts cubes (progress_of reading.old) text.now (words_of rest.now))) }
    ensures kept { OnOk result (IsReading reading.new) }
{
    match given_of(hosts, cubes, text, rest) {
        Ok(given) => add_given(reading, number, &given),
        Err(kind) => Err(at(number, kind)),
    }
}

// An answer is taken.
#[tactic(auto, unfolding(crate::specs::Text::took_line))]
fn took_line(
    reading: &mut Reading,
    number: u32,
    hosts: u8,
    text: &str,
    rest: &[u8],
) -> Result<(), LogFault>
    requires reading { IsReading reading.old }
    requires hosts { hosts ≤ most_hosts }
    requires first { words_of text.now ≡ codes "took" ∷ words_of rest.now }
    ensures value { Answers (λ _. progress_of reading.new) result (at_line number
        (took_line hosts (progress_of reading.old) text.now (words_of rest.now))) }
    ensures kept { OnOk result (IsReading reading.new) }
{
    match taken_of(hosts, text, rest) {
        Ok(taken) => add_taken(reading, number, &taken),
        Err(kind) => Err(at(number, kind)),
    }
}

// A logic unit is retired.
#[tactic(auto, unfolding(crate::specs::Text::retired_line))]
fn retired_line(reading: &mut Reading, number: u32, text: &str, rest: &[u8]) -> Result<(), LogFault>
    requires reading { IsReading reading.old }
    requires first { words_of text.now ≡ codes "retired" ∷ words_of rest.now }
    ensures value { Answers (λ _. progress_of reading.new) result (at_line number
        (retired_line (progress_of reading.old) text.now (words_of rest.now))) }
    ensures kept { OnOk result (IsReading reading.new) }
{
    match slot_of(text, rest) {
        Ok(slot) => add_retired(reading, number, slot),
        Err(kind) => Err(at(number, kind)),
    }
}

// A block is there at the end.
#[tactic(auto, unfolding(crate::specs::Text::memory_line))]
fn memory_line(
    reading: &mut Reading,
    number: u32,
    shapes: &[Shape],
    text: &str,
    rest: &[u8],
) -> Result<(), LogFault>
    requires reading { IsReading reading.old }
    requires cubes { length shapes.now ≤ most_cubes }
    ensures value { Answers (λ _. progress_of reading.new) result (at_line number
        (memory_line shapes.now (progress_of reading.old) text.now (words_of rest.now))) }
    ensures kept { OnOk result (IsReading reading.new) }
{
    match memory_of(shapes, text, rest) {
        Ok(block) => add_block(reading, number, &block),
        Err(kind) => Err(at(number, kind)),
    }
}

// A register is there at the end.
#[tactic(auto, unfolding(crate::specs::Text::register_line))]
fn register_line(
    reading: &mut Reading,
    number: u32,
    cubes: u8,
    text: &str,
    rest: &[u8],
) -> Result<(), LogFault>
    requires reading { IsReading reading.old }
    ensures value { Answers (λ _. progress_of reading.new) result (at_line number
        (register_line cubes (progress_of reading.old) text.now (words_of rest.now))) }
    ensures kept { OnOk result (IsReading reading.new) }
{
    match register_of(cubes, text, rest) {
        Ok(register) => add_register(reading, number, &register),
        Err(kind) => Err(at(number, kind)),
    }
}

// The end is over.
#[tactic(auto, unfolding(crate::specs::Text::state_line))]
fn state_line(reading: &mut Reading, number: u32, text: &str, rest: &[u8]) -> Result<(), LogFault>
    requires reading { IsReading reading.old }
    ensures value { Answers (λ _. progress_of reading.new) result (at_line number
        (state_line (progress_of reading.old) text.now (words_of rest.now))) }
    ensures kept { OnOk result (IsReading reading.new) }
{
    match drained_of(text, rest) {
        Ok(drained) => {
            reading.drained = Some(drained);
            Ok(())
        }
        Err(kind) => Err(at(number, kind)),
    }
}

// A line of an entry, with this first word.
#[tactic(auto, unfolding(crate::specs::Text::entry_line))]
fn entry_line(
    reading: &mut Reading,
    number: u32,
    hosts: u8,
    cubes: u8,
    text: &str,
    word: &[u8],
    rest: &[u8],
) -> Result<(), LogFault>
    requires reading { IsReading reading.old }
    requires hosts { hosts ≤ most_hosts }
    requires first { words_of text.now ≡ word.now ∷ words_of rest.now }
    requires word { is_entry_word word.now ≡ true }
    ensures value { Answers (λ _. progress_of reading.new) result (at_line number
        (entry_line hosts cubes (progress_of reading.old) text.now word.now (words_of rest.now))) }
    ensures kept { OnOk result (IsReading reading.new) }
{
    if at_end(reading) {
        return Err(at(number, LogKind::End));
    }
    if word == b"gave".as_slice() {
        return gave_line(reading, number, hosts, cubes, text, rest);
    }
    if word == b"took".as_slice() {
        return took_line(reading, number, hosts, text, rest);
    }
    retired_line(reading, number, text, rest)
}

fn is_entry_word(word: &[u8]) -> bool
    ensures { result ≡ is_entry_word word.now }
{
    word == b"gave".as_slice() || word == b"took".as_slice() || word == b"retired".as_slice()
}

// A line with this first word.
#[tactic(auto, unfolding(crate::specs::Text::line_with))]
fn line_with(
    reading: &mut Reading,
    number: u32,
    hosts: u8,
    shapes: &[Shape],
    text: &str,
    word: &[u8],
    rest: &[u8],
) -> Result<(), LogFault>
    requires reading { IsReading reading.old }
    requires hosts { hosts ≤ most_hosts }
    requires cubes { length shapes.now ≤ most_cubes }
    requires first { words_of text.now ≡ word.now ∷ words_of rest.now }
    ensures value { Answers (λ _. progress_of reading.new) result (at_line number
        (line_with hosts shapes.now (progress_of reading.old) text.now word.now
        (words_of rest.now))) }
    ensures kept { OnOk result (IsReading reading.new) }
{
    let cubes = shapes.len() as u8;
    if is_entry_word(word) {
        return entry_line(reading, number, hosts, cubes, text, word, rest);
    }
    if word == b"memory".as_slice() {
        return memory_line(reading, number, shapes, text, rest);
    }
    if word == b"register".as_slice() {
        return register_line(reading, number, cubes, text, rest);
    }
    if word == b"state".as_slice() {
        return state_line(reading, number, text, rest);
    }
    Err(at(number, LogKind::Word))
}

// A line that isn't after the end.
#[tactic(auto, unfolding(crate::specs::Text::statement))]
fn statement(
    reading: &mut Reading,
    number: u32,
    hosts: u8,
    shapes: &[Shape],
    text: &str,
) -> Result<(), LogFault>
    requires reading { IsReading reading.old }
    requires hosts { hosts ≤ most_hosts }
    requires cubes { length shapes.now ≤ most_cubes }
    ensures value { Answers (λ _. progress_of reading.new) result (at_line number
        (statement hosts shapes.now (progress_of reading.old) text.now)) }
    ensures kept { OnOk result (IsReading reading.new) }
{
    match next_word(LogKind::Word, text.as_bytes()) {
        Ok((word, rest)) => line_with(reading, number, hosts, shapes, text, word, rest),
        Err(kind) => Err(at(number, kind)),
    }
}

// The next line.
#[tactic(auto, unfolding(crate::specs::Text::after_line))]
fn read_line(
    reading: &mut Reading,
    number: u32,
    hosts: u8,
    shapes: &[Shape],
    text: &str,
) -> Result<(), LogFault>
    requires reading { IsReading reading.old }
    requires hosts { hosts ≤ most_hosts }
    requires cubes { length shapes.now ≤ most_cubes }
    ensures value { Answers (λ _. progress_of reading.new) result (at_line number
        (after_line hosts shapes.now (progress_of reading.old) text.now)) }
    ensures kept { OnOk result (IsReading reading.new) }
{
    if reading.drained.is_some() {
        return Err(at(number, LogKind::End));
    }
    if let Err(fault) = statement(reading, number, hosts, shapes, text) {
        return Err(fault);
    }
    reading.lines = reading.lines.saturating_add(1);
    Ok(())
}

// The first line of a text, without its line feed, and what comes after it.
fn cut_line(text: &str) -> (&str, &str)
    requires { 0 < length text.now }
    ensures lines { lines_in text.now ≡ result.0.now ∷ lines_in result.1.now }
    ensures shorter { length result.1.now < length text.now }
{
    match text.split_once('\n') {
        Some(parts) => parts,
        None => (text, ""),
    }
}

// All lines of a text.
fn read_lines(
    reading: &mut Reading,
    hosts: u8,
    shapes: &[Shape],
    text: &str,
) -> Result<(), LogFault>
    requires reading { IsReading reading.old }
    requires hosts { hosts ≤ most_hosts }
    requires cubes { length shapes.now ≤ most_cubes }
    ensures { Answers (λ _. progress_of reading.new) result
        (after_lines (after_line hosts shapes.now) 1 (progress_of reading.old)
        (lines_in text.now)) }
{
    let mut left = text;
    let mut number = 1u32;
    'lines: while !left.is_empty() {
        let (line, rest) = cut_line(left);
        if let Err(fault) = read_line(reading, number, hosts, shapes, line) {
            return Err(fault);
        }
        left = rest;
        number = number.saturating_add(1);
    }
    Ok(())
}

// The log that the lines make.
fn with_end(reading: Reading) -> Result<Log, LogFault>
    ensures { Answers (λ log. log) result
        (with_end (progress_of reading) (progress_of reading).drained) }
{
    if let Some(drained) = reading.drained {
        return Ok(Log {
            entries: reading.entries,
            ending: Some(End {
                memory: reading.memory,
                registers: reading.registers,
                drained,
            }),
        });
    }
    if at_end(&reading) {
        return Err(at(reading.lines, LogKind::End));
    }
    Ok(Log {
        entries: reading.entries,
        ending: None,
    })
}

// Before the first line, with room for the entries that a text of so many bytes can have.
fn begin(alloc: Global, bytes: usize) -> Result<Reading, Memory>
    ensures nothing { IfOk result (λ reading. progress_of reading ≡ nothing_yet) }
    ensures kept { IfOk result IsReading }
{
    let room = (bytes / LEAST_LINE).min(MOST_ENTRIES);
    let entries = match Vec::with_capacity(alloc, room) {
        Ok(entries) => entries,
        Err(_) => return Err(Memory),
    };
    Ok(Reading {
        entries,
        counts: Counts::new(),
        memory: Vec::new(alloc),
        registers: Vec::new(alloc),
        drained: None,
        lines: 0,
    })
}

impl Log {
    /// Reads a log for a case with so many hosts, at most 8, and cubes of these shapes, at most 8.
    /// The fault is the first one: its line, counted from 1, and what is wrong there. A line is
    /// looked at by itself first, from left to right, and then against the lines before it. Lines
    /// after line 4,294,967,295 have that number too. `Memory` comes only where memory is
    /// exhausted.
    #[tactic(auto, unfolding(crate::specs::Text::log_of))]
    pub fn parse(alloc: Global, text: &str, hosts: u8, shapes: &[Shape]) -> Result<Log, LogFault>
        requires hosts { hosts ≤ most_hosts }
        requires cubes { length shapes.now ≤ most_cubes }
        ensures { Answers (λ log. log) result (log_of hosts shapes.now text.now) }
    {
        let mut reading = begin(alloc, text.len())?;
        read_lines(&mut reading, hosts, shapes, text)?;
        with_end(reading)
    }
}
