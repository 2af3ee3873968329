//! The script of a trace.

ghost use Rattle.std.specs.Prelude.{◌≡◌, ◌≤◌, ◌<◌, ◌+◌, ◌-◌, ◌/◌, ◌^◌, true, [], ◌∷◌, ◌++◌, length, List, Option, IfOk, OnOk, OnErr, Ok};
ghost use Rattle.hmc_codes.specs.Limits.{most_cubes, most_memory};
ghost use Rattle.hmc_codes.specs.Shape.{capacity_of};
ghost use Rattle.hmc_text.specs.InTurn.{at_line, Answers};
ghost use Rattle.hmc_text.specs.Words.{words_of};
ghost use Rattle.hmc_trace.specs.Appending.{Appends};
ghost use Rattle.hmc_trace.specs.Parsed.{parsed_access, IsParsedIn, IsSmallParsed, AreDigits};
ghost use Rattle.hmc_trace.specs.Making.{made_of, IsProgress, make_cube, make_access, make_from_line, make_line, make_statement, made_lines, made_text, Compiles};
ghost use Rattle.hmc_accesses.specs.Meaning.{bytes_of_digits};
ghost use Rattle.hmc_accesses.specs.Requests.{store_requests};
ghost use Rattle.hmc_accesses.specs.Text.{cube_of, trace_of, compiled_text};
ghost use Rattle.hmc_accesses.specs.Laws.{IsPerformed};
ghost use Rattle.hmc_accesses.specs.Trace.{Trace};
ghost use Rattle.hmc_units.specs.Unit.{UnitFields};
ghost use Rattle.hmc_accesses.specs.Trace.Access.{load};

use crate::append::append;
use crate::meaning::{MOST, Parsed, access_of, shape_of};
use crate::requests::{Stored, add_load, add_store};
use hmc_accesses::{Load, TraceFault, TraceKind};
use hmc_codes::{Memory, Shape};
use hmc_script::Script;
use hmc_text::lines::Lines;
use hmc_text::reading::next_word;
use hmc_text::words::is_passed_over;
use std::alloc::Global;
use std::marker::Model;

/// The bytes of all cubes together.
const MOST_MEMORY: u64 = 16_777_216;

/// What some lines make: the cubes and their bytes, whether there was an access, and what was
/// compiled.
#[derive(Drop)]
pub struct Progress {
    pub cubes: Vec<Shape>,
    pub bytes: u64,
    pub begun: bool,
    pub script: Script,
    pub loads: Vec<Load>,
}

// The shape of one more cube.
#[tactic(auto, unfolding(hmc_accesses::specs::Text::cube_of))]
fn next_cube(begun: bool, cubes: usize, bytes: u64, line: &[u8]) -> Result<Shape, TraceKind>
    requires most { bytes ≤ most_memory }
    ensures value { result ≡ cube_of begun cubes bytes (words_of line.now) }
    ensures few { IfOk result (λ shape. cubes < most_cubes) }
    ensures room { IfOk result (λ shape. bytes + capacity_of shape ≤ most_memory) }
{
    if begun {
        return Err(TraceKind::Word);
    }
    if cubes >= 8 {
        return Err(TraceKind::Cubes);
    }
    let shape = shape_of(line)?;
    if shape.capacity() > MOST_MEMORY - bytes {
        return Err(TraceKind::Capacity);
    }
    Ok(shape)
}

// A cube is added.
#[tactic(auto, unfolding(crate::specs::Making::make_cube))]
fn cube_line(progress: &mut Progress, number: u32, line: &[u8]) -> Result<(), TraceFault>
    requires { IsProgress progress.old }
    ensures value { Answers (λ _. made_of progress.new) result
        (at_line number (make_cube (made_of progress.old) (words_of line.now))) }
    ensures kept { OnOk result (IsProgress progress.new) }
{
    let cubes = progress.cubes.len();
    match next_cube(progress.begun, cubes, progress.bytes, line) {
        Ok(shape) => {
            if append(&mut progress.cubes, shape).is_err() {
                return Err(TraceFault::Memory);
            }
            progress.bytes += shape.capacity();
            Ok(())
        }
        Err(kind) => Err(TraceFault::Fault { line: number, kind }),
    }
}

// The requests of a store.
fn add_stored(
    script: &mut Script,
    number: u32,
    cube: u8,
    place: u64,
    digits: &[u8],
) -> Result<(), TraceFault>
    requires cube { cube < 8 }
    requires digits { AreDigits digits.now }
    requires some { 1 ≤ length digits.now / 2 }
    requires few { length digits.now / 2 ≤ 4096 }
    requires small { place + length digits.now / 2 ≤ most_memory }
    ensures { Appends number script.old (store_requests cube place (bytes_of_digits digits.now))
        script.new result }
{
    let mut buffer = [0; MOST];
    let bytes = &mut buffer[..digits.len() / 2];
    let decoded = hex::decode_to_slice(digits, bytes);
    prove!(decoded.is_ok());
    let stored = Stored { cube, place, bytes };
    add_store(script, number, &stored)
}

// A load: its requests, and where they are.
fn add_loaded(
    script: &mut Script,
    loads: &mut Vec<Load>,
    number: u32,
    cube: u8,
    place: u64,
    length: u16,
) -> Result<(), TraceFault>
    requires cube { cube < 8 }
    requires some { 1 ≤ length }
    requires small { place + length ≤ most_memory }
    ensures { Compiles number (record { script = script.old; loads = loads.old.items })
        (load cube place length) (record { script = script.new; loads = loads.new.items }) result }
{
    let first = script.len();
    if let Err(fault) = add_load(script, number, cube, place, u64::from(length)) {
        return Err(fault);
    }
    let load = Load {
        first,
        count: script.len() - first,
        skip: (place % 16) as u8,
        length,
    };
    if let Err(_) = append(loads, load) {
        return Err(TraceFault::Memory);
    }
    Ok(())
}

// A load or a store is added.
fn perform(
    script: &mut Script,
    loads: &mut Vec<Load>,
    number: u32,
    parsed: &Parsed,
) -> Result<(), TraceFault>
    requires { IsSmallParsed parsed.now }
    ensures { Compiles number (record { script = script.old; loads = loads.old.items })
        (parsed_access parsed.now) (record { script = script.new; loads = loads.new.items })
        result }
{
    match parsed {
        Parsed::Load(cube, place, length) => add_loaded(
            script, loads, number, *cube, *place, *length,
        ),
        Parsed::Store(cube, place, digits) => add_stored(script, number, *cube, *place, digits),
    }
}

// The load or store of a line is added.
#[tactic(auto, unfolding(crate::specs::Making::make_from_line, crate::specs::Making::make_access))]
fn access_line(progress: &mut Progress, number: u32, line: &[u8]) -> Result<(), TraceFault>
    requires { IsProgress progress.old }
    ensures value { Answers (λ _. made_of progress.new) result
        (at_line number (make_from_line (made_of progress.old) (words_of line.now))) }
    ensures kept { OnOk result (IsProgress progress.new) }
{
    match access_of(&progress.cubes, line) {
        Ok(parsed) => {
            if let Err(fault) = perform(
                &mut progress.script,
                &mut progress.loads,
                number,
                &parsed,
            ) {
                return Err(fault);
            }
            progress.begun = true;
            Ok(())
        }
        Err(kind) => Err(TraceFault::Fault { line: number, kind }),
    }
}

// A line that isn't passed over.
#[tactic(auto, unfolding(crate::specs::Making::make_statement))]
fn statement(progress: &mut Progress, number: u32, line: &[u8]) -> Result<(), TraceFault>
    requires { IsProgress progress.old }
    ensures value { Answers (λ _. made_of progress.new) result
        (at_line number (make_statement (made_of progress.old) (words_of line.now))) }
    ensures kept { OnOk result (IsProgress progress.new) }
{
    match next_word(TraceKind::Words, line) {
        Ok((first, rest)) => {
            if first == b"cube".as_slice() {
                return cube_line(progress, number, rest);
            }
            access_line(progress, number, line)
        }
        Err(kind) => Err(TraceFault::Fault { line: number, kind }),
    }
}

// Reads the next line.
#[tactic(auto, unfolding(crate::specs::Making::make_line))]
fn read_line(progress: &mut Progress, number: u32, line: &[u8]) -> Result<(), TraceFault>
    requires { IsProgress progress.old }
    ensures value { Answers (λ _. made_of progress.new) result
        (at_line number (make_line (made_of progress.old) line.now)) }
    ensures kept { OnOk result (IsProgress progress.new) }
{
    if is_passed_over(line) {
        return Ok(());
    }
    statement(progress, number, line)
}

/// The script of a trace, of host 0 alone, and its loads in order. Contracts see both.
#[derive(Drop)]
pub struct Compiled {
    script: Script,
    loads: Vec<Load>,
}

impl Model for Compiled {
    ghost use Rattle.hmc_accesses.specs.Compiled.{CompiledFields};

    ghost Value = { CompiledFields };

    ghost view = { λ c. record { script = c.script; loads = c.loads.items } };
}

impl Compiled {
    /// The script.
    pub fn script(&self) -> &Script
        ensures { result.now ≡ self.now.script }
    {
        &self.script
    }

    /// The loads, in the order of the trace.
    pub fn loads(&self) -> &[Load]
        ensures { result.now ≡ self.now.loads }
    {
        &self.loads
    }
}

// All lines of a text, and the number of the last one.
fn read_lines(progress: &mut Progress, text: &str) -> Result<u32, TraceFault>
    requires { IsProgress progress.old }
    ensures { Answers (λ last. (made_of progress.new, last)) result
        (made_lines (made_of progress.old) text.now) }
{
    let mut last = 1;
    let mut left = Lines::of(text);
    'lines: while let Some((number, line)) = left.next_line() {
        if let Err(fault) = read_line(progress, number, line) {
            return Err(fault);
        }
        last = number;
    }
    Ok(last)
}

// Makes the script of a trace line by line.
#[tactic(auto, unfolding(crate::specs::Making::made_text))]
fn make(alloc: Global, text: &str) -> Result<Compiled, TraceFault>
    ensures { Answers (λ compiled. compiled) result (made_text text.now) }
{
    let mut progress = Progress {
        cubes: Vec::new(alloc),
        bytes: 0,
        begun: false,
        script: Script::new(alloc),
        loads: Vec::new(alloc),
    };
    let last = read_lines(&mut progress, text)?;
    if progress.cubes.is_empty() {
        return Err(TraceFault::Fault {
            line: last,
            kind: TraceKind::Cubes,
        });
    }
    Ok(Compiled {
        script: progress.script,
        loads: progress.loads,
    })
}

/// Reads a trace, and makes its script. The fault is the first one: its line, counted from 1, and
/// what is wrong there, found word by word from left to right.
pub fn compile(alloc: Global, text: &str) -> Result<Compiled, TraceFault>
    ensures text { Answers (λ compiled. compiled) result (compiled_text text.now) }

    // A plain machine that performs the script has the bytes that the trace leaves, and its answers
    // give the values of the loads.
    ensures performed { (trace : Trace) (slots : List (Option UnitFields)) →
        trace_of text.now ≡ Ok trace →
        IfOk result (λ compiled. IsPerformed compiled trace slots) }
{
    make(alloc, text)
}
