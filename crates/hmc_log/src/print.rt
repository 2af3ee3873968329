//! Logs are printed.

ghost use Rattle.std.specs.Prelude.{◌≡◌, ◌++◌, IfOk, OnOk, string_bytes};
ghost use Rattle.std.specs.List.{flat_map};
ghost use Rattle.hmc_entries.specs.Lines.{line_of};
ghost use Rattle.hmc_report.specs.Lines as report;
ghost use Rattle.hmc_log.specs.Lines.{memory_line, register_line, end_text, ending_text, log_text};

use crate::{End, Log, MemoryLine, RegisterLine};
use hmc_codes::{LineText, Memory};
use hmc_entries::Entry;
use hmc_report::{memory_line, register_line, state_line};
use std::alloc::Global;

fn print_entry(into: &mut String, entry: &Entry) -> Result<(), Memory>
    ensures { OnOk result (string_bytes into.new ≡ string_bytes into.old ++ line_of entry.now) }
{
    let mut line = LineText::new();
    entry.line(&mut line);
    into.push_str(line.as_str())?;
    Ok(())
}

fn print_block(into: &mut String, block: &MemoryLine) -> Result<(), Memory>
    ensures { OnOk result (string_bytes into.new ≡ string_bytes into.old ++ memory_line block.now) }
{
    let mut line = LineText::new();
    memory_line(&mut line, block.cube, block.address / 16, &block.bytes);
    into.push_str(line.as_str())?;
    Ok(())
}

fn print_register(into: &mut String, register: &RegisterLine) -> Result<(), Memory>
    ensures { OnOk result
        (string_bytes into.new ≡ string_bytes into.old ++ register_line register.now) }
{
    let mut line = LineText::new();
    let number = u64::from(register.number);
    register_line(&mut line, register.cube, number, register.value);
    into.push_str(line.as_str())?;
    Ok(())
}

fn print_state(into: &mut String, drained: bool) -> Result<(), Memory>
    ensures { OnOk result
        (string_bytes into.new ≡ string_bytes into.old ++ report.state_line drained) }
{
    let mut line = LineText::new();
    state_line(&mut line, drained);
    into.push_str(line.as_str())?;
    Ok(())
}

fn print_entries(into: &mut String, entries: &[Entry]) -> Result<(), Memory>
    ensures { OnOk result
        (string_bytes into.new ≡ string_bytes into.old ++ flat_map line_of entries.now) }
{
    'lines: for at in 0..entries.len() {
        if let Err(memory) = print_entry(into, &entries[at]) {
            return Err(memory);
        }
    }
    Ok(())
}

fn print_memory(into: &mut String, blocks: &[MemoryLine]) -> Result<(), Memory>
    ensures { OnOk result
        (string_bytes into.new ≡ string_bytes into.old ++ flat_map memory_line blocks.now) }
{
    'lines: for at in 0..blocks.len() {
        if let Err(memory) = print_block(into, &blocks[at]) {
            return Err(memory);
        }
    }
    Ok(())
}

fn print_registers(into: &mut String, registers: &[RegisterLine]) -> Result<(), Memory>
    ensures { OnOk result
        (string_bytes into.new ≡ string_bytes into.old ++ flat_map register_line registers.now) }
{
    'lines: for at in 0..registers.len() {
        if let Err(memory) = print_register(into, &registers[at]) {
            return Err(memory);
        }
    }
    Ok(())
}

#[tactic(auto, unfolding(crate::specs::Lines::end_text))]
fn print_end(into: &mut String, ending: &End) -> Result<(), Memory>
    ensures { OnOk result (string_bytes into.new ≡ string_bytes into.old ++ end_text ending.now) }
{
    print_memory(into, &ending.memory)?;
    print_registers(into, &ending.registers)?;
    print_state(into, ending.drained)
}

fn print_ending(into: &mut String, ending: &Option<End>) -> Result<(), Memory>
    ensures { OnOk result
        (string_bytes into.new ≡ string_bytes into.old ++ ending_text ending.now) }
{
    match ending {
        Some(ending) => print_end(into, ending),
        None => Ok(()),
    }
}

impl Log {
    /// The log as a text: its lines as reports have them. `Memory` comes only where memory is
    /// exhausted.
    #[tactic(auto, unfolding(crate::specs::Lines::log_text))]
    pub fn print(&self, alloc: Global) -> Result<String, Memory>
        ensures { IfOk result (λ text. string_bytes text ≡ log_text self.now) }
    {
        let mut text = String::new(alloc);
        print_entries(&mut text, &self.entries)?;
        print_ending(&mut text, &self.ending)?;
        Ok(text)
    }
}
