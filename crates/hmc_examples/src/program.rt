//! Runs of the program with both shipped units.

use hmc_codes::Memory;
use hmc_outside::{MemorySink, MemorySource};
use hmc_replay::replay;
use hmc_units::{LogicUnit, Reverse, Stamp};
use std::alloc::{AllocError, Global};

fn owned(alloc: Global, words: &[&str]) -> Result<Vec<String>, AllocError> {
    let mut owned = Vec::new(alloc);
    for word in words {
        owned.push(String::from_str(alloc, word)?)?;
    }
    Ok(owned)
}

/// Runs the program of these words, and returns the status that it ends with.
pub fn run_program(
    alloc: Global,
    words: &[&str],
    mut source: MemorySource,
    sink: &mut MemorySink,
) -> Result<u8, Memory> {
    let words = owned(alloc, words)?;
    let mut units: Vec<Box<dyn LogicUnit>> = Vec::new(alloc);
    units.push(Box::new(alloc, Reverse::new(0, 0))?)?;
    units.push(Box::new(alloc, Stamp::new(0, 1))?)?;
    Ok(replay(alloc, &words, &mut source, sink, units))
}

/// Whether the program of these words ends with this status and has written this text.
pub fn answers(
    alloc: Global,
    words: &[&str],
    source: MemorySource,
    mut sink: MemorySink,
    wanted: u8,
    text: &[u8],
) -> Result<bool, Memory> {
    let status = run_program(alloc, words, source, &mut sink)?;
    Ok(status == wanted && sink.as_slice() == text)
}
