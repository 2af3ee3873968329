//! What the parts of a network need.

use hmc_codes::{Command, Graph, Join, MOST_ASKED, Memory, Payload, Place, Request, Shape};
use hmc_cube::Cube;
use hmc_entries::{Entry, Journal};
use hmc_host::Host;
use hmc_routes::Routes;
use hmc_script::Script;
use hmc_vault::Vault;
use std::alloc::{AllocError, Global};

// Port 1 of cube 0, joined to port 0 of cube 1.
const JOIN: Join = Join {
    a: Place::Port { cube: 0, port: 1 },
    b: Place::Port { cube: 1, port: 0 },
};

// Whether the routes of two cubes are found.
#[tactic(auto, unfolding(hmc_routes::specs::Neighbours::joined_to, hmc_routes::specs::WellFormed::has_no_gap))]
fn are_routed(alloc: Global) -> Result<bool, AllocError> {
    let graph = Graph::new(2, vec![in alloc; JOIN]?);
    Ok(Routes::build(alloc, &graph).is_ok())
}

// Two vaults of two banks of one row.
const SHAPE: Shape = Shape {
    vault_bits: 1,
    bank_bits: 1,
    rows: 1,
    block: 256,
};

// A read of cube 3.
#[tactic(auto, unfolding(hmc_codes::specs::Table::table_line))]
fn read() -> Request {
    Request {
        command: Command::Rd16,
        cube: 3,
        address: 0x40,
        payload: Payload::empty(),
    }
}

// A script of one read.
fn one_read(alloc: Global) -> Result<Script, Memory> {
    let mut script = Script::new(alloc);
    script.add(1, false, read())?;
    Ok(script)
}

// Whether a host takes one more read.
fn takes_one_more(host: &mut Host) -> bool {
    host.asked() < MOST_ASKED && host.ask(false, false, &read()).is_ok()
}

// Whether a host that has the requests of a script takes one more.
fn is_asked(alloc: Global) -> Result<bool, Memory> {
    let mut host = Host::new(alloc, 1, &one_read(alloc)?)?;
    Ok(takes_one_more(&mut host))
}

fn is_printed(alloc: Global) -> bool {
    let mut text = String::new(alloc);
    Entry::Discarded { host: 2 }.print(alloc, &mut text).is_ok()
}

/// Whether routes, a vault, a cube, a journal, a line, a host and one more request of it are made.
pub fn are_made(alloc: Global) -> bool {
    matches!(are_routed(alloc), Ok(true))
        && Vault::new(alloc, 4, 64).is_ok()
        && Cube::new(alloc, 6, SHAPE, 64).is_ok()
        && Journal::new(alloc, 1_000).is_ok()
        && is_printed(alloc)
        && matches!(is_asked(alloc), Ok(true))
}
