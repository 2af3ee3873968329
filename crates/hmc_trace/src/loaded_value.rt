//! The values of loads.

ghost use Rattle.std.specs.Prelude.{◌≡◌, ◌<◌, ◌≤◌, ◌+◌, ◌^◌, true, [], ◌++◌, length, map, take, drop, reverse, slice_get, Some, IfSome, IfOk, OnOk, option_map, option_and_then};
ghost use Rattle.hmc_accesses.specs.declared.load.Load.{Load};
ghost use Rattle.hmc_journal.specs.Lawful.{Lawful};
ghost use Rattle.hmc_journal.specs.Network.{IsNetwork};
ghost use Rattle.hmc_journal.specs.Setup.{Setup, shapes_of};
ghost use Rattle.hmc_accesses.specs.Compiled.{compiled_of};
ghost use Rattle.hmc_journal.specs.Drained.{is_drained};
ghost use Rattle.hmc_journal.specs.Filters.{given_by};
ghost use Rattle.hmc_accesses.specs.InOrder.{known_answer};
ghost use Rattle.hmc_accesses.specs.Trace.{Trace, IsTrace, loaded};
ghost use Rattle.hmc_accesses.specs.Value.{bytes_at, joined, cut, load_value, value_in};

use crate::Compiled;
use crate::answered::answers_in;
use crate::append::append;
use crate::read_bytes::bytes_at;
use hmc_accesses::Load;
use hmc_codes::{Answer, Memory};
use hmc_entries::Entry;
use hmc_script::Script;
use std::alloc::Global;

// The bytes that so many requests read, one after another.
fn joined(
    alloc: Global,
    script: &Script,
    answers: &[Option<Answer>],
    first: u32,
    count: u32,
) -> Result<Option<Vec<u8>>, Memory>
    requires { first + count < 2 ^ 32 }
    ensures { IfOk result (λ bytes. option_map (λ b. b.items) bytes
        ≡ joined (known_answer answers.now) script.now first count) }
{
    let mut bytes = Vec::new(alloc);
    'requests: for place in first..first + count {
        let Some(payload) = bytes_at(script, answers, place) else {
            return Ok(None);
        };
        if let Err(_) = bytes.extend_from_slice(payload.as_slice()) {
            return Err(Memory);
        }
    }
    Ok(Some(bytes))
}

// The bytes that a load's requests read, if the script has them.
fn read(
    alloc: Global,
    script: &Script,
    load: Load,
    answers: &[Option<Answer>],
) -> Result<Option<Vec<u8>>, Memory>
    ensures { IfOk result (λ bytes. option_map (λ b. b.items) bytes
        ≡ joined (known_answer answers.now) script.now load.first load.count) }
{
    if load.count == 0 {
        return Ok(Some(Vec::new(alloc)));
    }
    if u64::from(load.first) + u64::from(load.count) > u64::from(script.len()) {
        return Ok(None);
    }
    joined(alloc, script, answers, load.first, load.count)
}

// A load's bytes.
fn cut(alloc: Global, load: Load, bytes: &[u8]) -> Result<Vec<u8>, Memory>
    ensures { IfOk result (λ part. part.items ≡ cut load bytes.now) }
{
    let rest = &bytes[bytes.len().min(usize::from(load.skip))..];
    let part = &rest[..rest.len().min(usize::from(load.length))];
    let mut own = Vec::new(alloc);
    if let Err(_) = own.extend_from_slice(part) {
        return Err(Memory);
    }
    Ok(own)
}

// The value of a load, by the answers to the requests of the script.
#[tactic(auto, unfolding(hmc_accesses::specs::Value::load_value))]
fn value_of(
    alloc: Global,
    script: &Script,
    load: Load,
    answers: &[Option<Answer>],
) -> Result<Option<Vec<u8>>, Memory>
    ensures { IfOk result (λ bytes. option_map (λ b. b.items) bytes
        ≡ load_value (known_answer answers.now) script.now load) }
{
    match read(alloc, script, load, answers) {
        Ok(Some(bytes)) => match cut(alloc, load, &bytes) {
            Ok(own) => Ok(Some(own)),
            Err(memory) => Err(memory),
        },
        Ok(None) => Ok(None),
        Err(memory) => Err(memory),
    }
}

/// The value of a load, by a journal whose entries are in the order in which they came. None where
/// the journal has no answer to one of the load's requests, or one that isn't a read of as many
/// bytes. The answer to the n-th request of host 0 is that of as many answers under its tag as
/// requests with that tag come before it.
pub fn value(
    alloc: Global,
    compiled: &Compiled,
    load: u32,
    journal: &[Entry],
) -> Result<Option<Vec<u8>>, Memory>
    requires { load < length compiled.now.loads }
    ensures value { IfOk result (λ bytes. (own : Load) →
        slice_get compiled.now.loads load ≡ Some own →
        option_map (λ b. b.items) bytes ≡ value_in compiled.now (reverse journal.now) own) }

    // Where the journal is a lawful one of a network of the trace's cubes, in which host 0 asks
    // what the script says, and the value is known, it is that of the trace.
    ensures loaded { (trace : Trace) (setup : Setup) → IsTrace trace →
        compiled.now ≡ compiled_of trace → IsNetwork setup →
        Lawful setup (reverse journal.now) → shapes_of setup.topology ≡ trace.cubes →
        setup.script ≡ compiled.now.script →
        IfOk result (λ found. IfSome found (λ bytes.
        slice_get (loaded trace) load ≡ Some bytes.items)) }
{
    let answers = answers_in(alloc, journal)?;
    let load = compiled.loads()[load as usize];
    value_of(alloc, compiled.script(), load, &answers)
}

// The values of some loads, by the answers to the requests of the script.
fn values_of(
    alloc: Global,
    script: &Script,
    loads: &[Load],
    answers: &[Option<Answer>],
) -> Result<Vec<Option<Vec<u8>>>, Memory>
    ensures { IfOk result (λ values. map (λ found. option_map (λ b. b.items) found) values.items
        ≡ map (load_value (known_answer answers.now) script.now) loads.now) }
{
    let mut values = Vec::new(alloc);
    'loads: for load in loads {
        let found = match value_of(alloc, script, *load, answers) {
            Ok(found) => found,
            Err(memory) => return Err(memory),
        };
        if let Err(memory) = append(&mut values, found) {
            return Err(memory);
        }
    }
    Ok(values)
}

/// The values of all loads, in the order of the trace: what `value` gives for each, in one pass
/// over the journal.
pub fn values(
    alloc: Global,
    compiled: &Compiled,
    journal: &[Entry],
) -> Result<Vec<Option<Vec<u8>>>, Memory>
    ensures values { IfOk result (λ values.
        map (λ found. option_map (λ b. b.items) found) values.items
        ≡ map (value_in compiled.now (reverse journal.now)) compiled.now.loads) }

    // Where the journal is a lawful one of a network of the trace's cubes, in which host 0 asks
    // what the script says: once host 0 gave all requests and the network is drained, each value is
    // known, and they are those of the trace.
    ensures loaded { (trace : Trace) (setup : Setup) → IsTrace trace →
        compiled.now ≡ compiled_of trace → IsNetwork setup →
        Lawful setup (reverse journal.now) → shapes_of setup.topology ≡ trace.cubes →
        setup.script ≡ compiled.now.script →
        length (given_by 0 (reverse journal.now)) ≡ length setup.script →
        is_drained setup.topology (reverse journal.now) ≡ true →
        IfOk result (λ values.
        map (λ found. option_map (λ b. b.items) found) values.items ≡ map Some (loaded trace)) }
{
    let answers = answers_in(alloc, journal)?;
    values_of(alloc, compiled.script(), compiled.loads(), &answers)
}
