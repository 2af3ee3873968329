//! What requests need.

use hmc_codes::{Command, Memory, Payload, Request, Shape};
use hmc_memory::Banks;
use hmc_outside::{MemorySink, MemorySource};
use hmc_serial::Plain;
use hmc_units::{Reverse, Slots};
use std::alloc::Global;

// Four vaults of two banks of three rows.
const SHAPE: Shape = Shape {
    vault_bits: 2,
    bank_bits: 1,
    rows: 3,
    block: 256,
};

// A bench of one unit.
fn new_bench(alloc: Global) -> Result<Slots<Reverse>, Memory> {
    let units = vec![in alloc; Reverse::new(0, 0)]?;
    Slots::new(alloc, units)
}

// A read of register 15 of cube 3.
#[tactic(auto, unfolding(hmc_codes::specs::Table::table_line))]
fn load() -> Request {
    Request {
        command: Command::Mdrd,
        cube: 3,
        address: 15,
        payload: Payload::empty(),
    }
}

fn are_cubes_made(alloc: Global) -> bool {
    Banks::new(alloc, SHAPE).is_ok()
        && Plain::new(alloc, &[SHAPE, SHAPE]).is_ok()
        && new_bench(alloc).is_ok()
}

/// Whether banks, plain machines, a bench, a source, a sink and a text are made.
pub fn are_made(alloc: Global) -> bool {
    are_cubes_made(alloc)
        && MemorySource::new(alloc, b"quick fox", &[2]).is_ok()
        && MemorySink::new(alloc, 6, &[(2, 2)]).is_ok()
        && load().text(alloc).is_ok()
}
