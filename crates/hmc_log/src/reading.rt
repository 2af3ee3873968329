//! What some lines of a log make, and what a line adds.

ghost use Rattle.std.specs.Prelude.{◌≡◌, ◌<◌, ◌-◌, [], ◌∷◌, ◌++◌, length, slice_get, OnOk, IfSome};
ghost use Rattle.hmc_codes.specs.Limits.{most_hosts, tags};
ghost use Rattle.hmc_text.specs.InTurn.{at_line, Answers};
ghost use Rattle.hmc_text.specs.declared.fault.TextFault.TheVariants as faults;
ghost use Rattle.hmc_log.specs.Progress.{progress_of, IsReading};
ghost use Rattle.hmc_log.specs.Text.{comes_after, follows, may_have_block, may_have_register, add_given, add_taken, add_retired, add_block, add_register, at_end};

use crate::counts::Counts;
use crate::given::{Given, Taken};
use crate::knowing::{answers_to, may_give, may_retire, note_given, note_retired, note_taken};
use crate::{LogFault, LogKind, MemoryLine, RegisterLine};
use hmc_codes::Memory;
use hmc_entries::Entry;

/// What some lines make: the entries and what is kept of them, the lines of the end, what the last
/// line says, and how many lines there were.
#[derive(Drop)]
pub struct Reading {
    pub entries: Vec<Entry>,
    pub counts: Counts,
    pub memory: Vec<MemoryLine>,
    pub registers: Vec<RegisterLine>,
    pub drained: Option<bool>,
    pub lines: u32,
}

/// The fault of a line.
pub fn at(number: u32, kind: LogKind) -> LogFault
    ensures { result ≡ faults.Fault number kind }
{
    LogFault::Fault { line: number, kind }
}

/// Whether there was a line of memory or of a register.
pub fn at_end(reading: &Reading) -> bool
    ensures { result ≡ at_end (progress_of reading.now) }
{
    !reading.memory.is_empty() || !reading.registers.is_empty()
}

// Appends an item to a list.
fn append<T: Copy>(items: &mut Vec<T>, item: T) -> Result<(), Memory>
    ensures { OnOk result (items.new.items ≡ items.old.items ++ item ∷ []) }
{
    match items.push(item) {
        Ok(()) => Ok(()),
        Err(_) => Err(Memory),
    }
}

/// Adds a request.
#[tactic(auto, unfolding(crate::specs::Text::add_given))]
pub fn add_given(reading: &mut Reading, number: u32, given: &Given) -> Result<(), LogFault>
    requires reading { IsReading reading.old }
    requires host { given.now.host < most_hosts }
    requires tag { IfSome given.now.tag (λ t. t < tags) }
    ensures value { Answers (λ _. progress_of reading.new) result
        (at_line number (add_given (progress_of reading.old) given.now)) }
    ensures kept { OnOk result (IsReading reading.new) }
{
    if let Err(kind) = may_give(&reading.counts, given.host, given.tag) {
        return Err(at(number, kind));
    }
    let entry = Entry::Gave {
        host: given.host,
        tag: given.tag,
        poisoned: given.poisoned,
        request: given.request,
    };
    if append(&mut reading.entries, entry).is_err() {
        return Err(LogFault::Memory);
    }
    let command = given.request.command;
    note_given(&mut reading.counts, given.host, given.tag, command);
    Ok(())
}

/// Adds an answer.
#[tactic(auto, unfolding(crate::specs::Text::add_taken))]
pub fn add_taken(reading: &mut Reading, number: u32, taken: &Taken) -> Result<(), LogFault>
    requires reading { IsReading reading.old }
    requires host { taken.now.host < most_hosts }
    requires tag { taken.now.tag < tags }
    ensures value { Answers (λ _. progress_of reading.new) result
        (at_line number (add_taken (progress_of reading.old) taken.now)) }
    ensures kept { OnOk result (IsReading reading.new) }
{
    if let Err(kind) = answers_to(&reading.counts, taken) {
        return Err(at(number, kind));
    }
    let entry = Entry::Took {
        host: taken.host,
        tag: taken.tag,
        answer: taken.answer,
    };
    if append(&mut reading.entries, entry).is_err() {
        return Err(LogFault::Memory);
    }
    note_taken(&mut reading.counts, taken);
    Ok(())
}

/// Adds that a logic unit was retired.
#[tactic(auto, unfolding(crate::specs::Text::add_retired))]
pub fn add_retired(reading: &mut Reading, number: u32, slot: u8) -> Result<(), LogFault>
    requires reading { IsReading reading.old }
    requires slot { slot < 8 }
    ensures value { Answers (λ _. progress_of reading.new) result
        (at_line number (add_retired (progress_of reading.old) slot)) }
    ensures kept { OnOk result (IsReading reading.new) }
{
    if let Err(kind) = may_retire(&reading.counts, slot) {
        return Err(at(number, kind));
    }
    if append(&mut reading.entries, Entry::Retired { slot }).is_err() {
        return Err(LogFault::Memory);
    }
    note_retired(&mut reading.counts, slot);
    Ok(())
}

// Whether a block comes after the last of these.
fn comes_after(lines: &[MemoryLine], block: &MemoryLine) -> bool
    ensures { result ≡ comes_after (slice_get lines.now (length lines.now - 1)) block.now }
{
    match lines.last() {
        None => true,
        Some(last) => {
            last.cube < block.cube || (last.cube == block.cube && last.address < block.address)
        }
    }
}

// Whether a register comes after the last of these.
fn follows(lines: &[RegisterLine], register: &RegisterLine) -> bool
    ensures { result ≡ follows (slice_get lines.now (length lines.now - 1)) register.now }
{
    match lines.last() {
        None => true,
        Some(last) => {
            last.cube < register.cube
                || (last.cube == register.cube && last.number < register.number)
        }
    }
}

// Whether a block may come: after the one before, and before all registers.
fn may_have_block(reading: &Reading, block: &MemoryLine) -> bool
    ensures { result ≡ may_have_block (progress_of reading.now) block.now }
{
    reading.registers.is_empty() && comes_after(&reading.memory, block)
}

/// Adds a block.
#[tactic(auto, unfolding(crate::specs::Text::add_block))]
pub fn add_block(reading: &mut Reading, number: u32, block: &MemoryLine) -> Result<(), LogFault>
    ensures value { Answers (λ _. progress_of reading.new) result
        (at_line number (add_block (progress_of reading.old) block.now)) }
    ensures kept { IsReading reading.old → OnOk result (IsReading reading.new) }
{
    if !may_have_block(reading, block) {
        return Err(at(number, LogKind::Memory));
    }
    if append(&mut reading.memory, *block).is_err() {
        return Err(LogFault::Memory);
    }
    Ok(())
}

/// Adds a register.
#[tactic(auto, unfolding(crate::specs::Text::add_register))]
pub fn add_register(
    reading: &mut Reading,
    number: u32,
    register: &RegisterLine,
) -> Result<(), LogFault>
    ensures value { Answers (λ _. progress_of reading.new) result
        (at_line number (add_register (progress_of reading.old) register.now)) }
    ensures kept { IsReading reading.old → OnOk result (IsReading reading.new) }
{
    if !follows(&reading.registers, register) {
        return Err(at(number, LogKind::Register));
    }
    if append(&mut reading.registers, *register).is_err() {
        return Err(LogFault::Memory);
    }
    Ok(())
}
