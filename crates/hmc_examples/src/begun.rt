//! How a session begins.

use hmc_case::Case;
use hmc_codes::Memory;
use hmc_tape::Taped;
use hmc_units::{Reverse, Shipped, Slots, Stamp};
use std::alloc::Global;

/// A session with shipped units and a tape.
pub type WithTape = Taped<Slots<Shipped>>;

/// Both shipped units, as the program has them.
pub fn units(alloc: Global) -> Result<Slots<Shipped>, Memory> {
    let mut units = Vec::new(alloc);
    units.push(Shipped::Reverse(Reverse::new(0, 0)))?;
    units.push(Shipped::Stamp(Stamp::new(0, 1)))?;
    Slots::new(alloc, units)
}

/// The case of a text that is one.
pub fn case_of(alloc: Global, text: &str) -> Result<Case, Memory> {
    match Case::read(alloc, text.as_bytes()) {
        Ok(case) => Ok(case),
        Err(_) => Err(Memory),
    }
}

// The session of a case.
fn begin_case(alloc: Global, case: &Case) -> Result<WithTape, Memory> {
    Taped::begin(alloc, case, units(alloc)?)
}

/// The session of a case, by its text.
pub fn begin(alloc: Global, text: &str) -> Result<WithTape, Memory> {
    match case_of(alloc, text) {
        Ok(case) => begin_case(alloc, &case),
        Err(memory) => Err(memory),
    }
}
