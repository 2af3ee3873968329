//! What a line of the end states by itself.

ghost use Rattle.std.specs.Prelude.{◌≡◌, ◌<◌, ◌≤◌, ◌^◌, length, true, false, IfOk};
ghost use Rattle.std.specs.Str.{bytes_eq};
ghost use Rattle.hmc_codes.specs.Limits.{most_cubes};
ghost use Rattle.hmc_report.specs.Lines as report;
ghost use Rattle.hmc_text.specs.Words.{words_of};
ghost use Rattle.hmc_log.specs.Lines.{is_line, memory_line, register_line, EndsWithFeed};
ghost use Rattle.hmc_log.specs.Meaning.{is_memory, memory_of, is_register, register_of, drained_of};

use crate::words::{block_of, number_word, small_word, value_of};
use crate::{LogKind, MemoryLine, RegisterLine};
use hmc_codes::{LineText, Shape};
use hmc_report::{memory_line, register_line, state_line};
use hmc_text::reading::{next_word, no_word};

/// Addresses are below 2^34.
const ADDRESSES: u64 = 1 << 34;

fn is_same(front: &[u8], text: &[u8]) -> bool
    ensures { result ≡ bytes_eq front.now text.now }
{
    front == text
}

// Whether the text, with a line feed after it, is this line.
fn is_line(text: &str, line: &LineText) -> bool
    requires { EndsWithFeed line.now.bytes }
    ensures { result ≡ is_line text.now line.now.bytes }
{
    match line.as_str().as_bytes() {
        [front @ .., _] => is_same(front, text.as_bytes()),
        [] => false,
    }
}

fn is_memory_line(text: &str, block: &MemoryLine) -> bool
    requires { block.now.address < 2 ^ 34 }
    ensures { result ≡ is_line text.now (memory_line block.now) }
{
    let mut line = LineText::new();
    memory_line(&mut line, block.cube, block.address / 16, &block.bytes);
    is_line(text, &line)
}

// Whether the block is below the capacity of its cube, and the text is its line.
#[tactic(auto, unfolding(crate::specs::Meaning::is_memory))]
fn is_memory(shapes: &[Shape], text: &str, block: &MemoryLine) -> bool
    requires cube { block.now.cube < length shapes.now }
    requires address { block.now.address < 2 ^ 34 }
    ensures { result ≡ is_memory shapes.now text.now block.now }
{
    if block.address % 16 != 0 {
        return false;
    }
    if block.address >= shapes[usize::from(block.cube)].capacity() {
        return false;
    }
    is_memory_line(text, block)
}

/// A cube, an address and sixteen bytes. `rest` is what comes after the first word.
#[tactic(auto, unfolding(crate::specs::Meaning::memory_of))]
pub fn memory_of(shapes: &[Shape], text: &str, rest: &[u8]) -> Result<MemoryLine, LogKind>
    requires { length shapes.now ≤ most_cubes }
    ensures { result ≡ memory_of shapes.now text.now (words_of rest.now) }
{
    let (cube, rest) = small_word(LogKind::Memory, shapes.len() as u8, rest)?;
    let (address, rest) = number_word(LogKind::Memory, ADDRESSES, rest)?;
    let (digits, rest) = next_word(LogKind::Words, rest)?;
    let Some(bytes) = block_of(digits) else {
        return Err(LogKind::Memory);
    };
    no_word(LogKind::Words, rest)?;
    let block = MemoryLine {
        cube,
        address,
        bytes,
    };
    if is_memory(shapes, text, &block) {
        Ok(block)
    } else {
        Err(LogKind::Memory)
    }
}

fn is_register_line(text: &str, register: &RegisterLine) -> bool
    ensures { result ≡ is_line text.now (register_line register.now) }
{
    let mut line = LineText::new();
    let number = u64::from(register.number);
    register_line(&mut line, register.cube, number, register.value);
    is_line(text, &line)
}

// Whether the register can be written, and the text is its line.
#[tactic(auto, unfolding(crate::specs::Meaning::is_register))]
fn is_register(text: &str, register: &RegisterLine) -> bool
    ensures { result ≡ is_register text.now register.now }
{
    if register.number < 4 {
        return false;
    }
    is_register_line(text, register)
}

/// A cube, a register and its value. `rest` is what comes after the first word.
#[tactic(auto, unfolding(crate::specs::Meaning::register_of))]
pub fn register_of(cubes: u8, text: &str, rest: &[u8]) -> Result<RegisterLine, LogKind>
    ensures { result ≡ register_of cubes text.now (words_of rest.now) }
{
    let (cube, rest) = small_word(LogKind::Register, cubes, rest)?;
    let (number, rest) = small_word(LogKind::Register, 16, rest)?;
    let (digits, rest) = next_word(LogKind::Words, rest)?;
    let Some(value) = value_of(digits) else {
        return Err(LogKind::Register);
    };
    no_word(LogKind::Words, rest)?;
    let register = RegisterLine {
        cube,
        number,
        value,
    };
    if is_register(text, &register) {
        Ok(register)
    } else {
        Err(LogKind::Register)
    }
}

fn is_state_line(text: &str, drained: bool) -> bool
    ensures { result ≡ is_line text.now (report.state_line drained) }
{
    let mut line = LineText::new();
    state_line(&mut line, drained);
    is_line(text, &line)
}

/// Whether the network had drained. `rest` is what comes after the first word.
#[tactic(auto, unfolding(crate::specs::Meaning::drained_of))]
pub fn drained_of(text: &str, rest: &[u8]) -> Result<bool, LogKind>
    ensures { result ≡ drained_of text.now (words_of rest.now) }
{
    let (_, rest) = next_word(LogKind::Words, rest)?;
    no_word(LogKind::Words, rest)?;
    if is_state_line(text, true) {
        return Ok(true);
    }
    if is_state_line(text, false) {
        return Ok(false);
    }
    Err(LogKind::End)
}
