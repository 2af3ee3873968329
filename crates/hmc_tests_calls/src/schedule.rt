//! Lines of schedules: which step a good one is, and as many steps as there may be.

use hmc_codes::{Lift, Shape};
use hmc_schedule::{CubePlan, Plan, Schedule, Step};
use std::alloc::{AllocError, Global};
use std::process::Abort;
use std::test::Fail;

// A cube with so many vaults and banks, by the bits of their numbers, and these ports joined.
macro_rules! cube {
    ($vault_bits:expr, $bank_bits:expr, $ports:expr) => {
        CubePlan {
            shape: Shape {
                vault_bits: $vault_bits,
                bank_bits: $bank_bits,
                rows: 4,
                block: 256,
            },
            ports: $ports,
        }
    };
}

// Two hosts, and two cubes that differ in vaults, banks and joined ports: 37 steps a round.
fn wide(alloc: Global) -> Result<Plan, AllocError> {
    let first = cube!(1, 1, [true, false, true, false]);
    let second = cube!(0, 2, [false, true, false, false]);
    Ok(Plan {
        hosts: 2,
        directions: 6,
        cubes: vec![in alloc; first, second]?,
    })
}

// The mask of the last bit of a flit.
const LAST_BIT: [u8; 16] = [0, 0, 0, 0, 0, 0, 0, 0, 0, 0, 0, 0, 0, 0, 0, 0x80];

const STEPS: [(&str, Step); 23] = [
    ("give 1", Step::Give(1)),
    ("send 5", Step::Send(5)),
    ("land 5", Step::Land(5, [0; 16])),
    (
        "land 0 00000000000000000000000000000000",
        Step::Land(0, [0; 16]),
    ),
    (
        "land 0 00000000000000000000000000000080",
        Step::Land(0, LAST_BIT),
    ),
    (
        "land 3 fFFFFFFFFFFFFFFFFFFFFFFFFFFFFFfF",
        Step::Land(3, [0xFF; 16]),
    ),
    ("unlock 4", Step::Unlock(4)),
    ("unlock 0x1", Step::Unlock(1)),
    ("shift 0 2", Step::Shift(0, 2)),
    ("spread 0 1", Step::Spread(0, 1)),
    ("bank 0 1 1", Step::Bank(0, 1, 1)),
    ("bank 1 0 3", Step::Bank(1, 0, 3)),
    ("registers 1", Step::Registers(1)),
    ("lift 0 1", Step::Lift(0, Lift::Vault(1))),
    ("lift 1 r", Step::Lift(1, Lift::Registers)),
    ("take 0", Step::Take(0)),
    ("through 0 2", Step::Through(0, 2)),
    ("through 0x1 01", Step::Through(1, 1)),
    ("retire 7", Step::Retire(7)),
    ("\t send \t 3 \r", Step::Send(3)),
    ("send 0x5", Step::Send(5)),
    ("send 00000000000000000003", Step::Send(3)),
    ("send 0x00000000000000000003", Step::Send(3)),
];

// Texts with more steps than one: their number, and the last of them.
const LONG: [(&str, u32, Step); 3] = [
    ("round 2", 74, Step::Take(1)),
    ("round 27027", 999_999, Step::Take(1)),
    ("round 27027\nland 5", 1_000_000, Step::Land(5, [0; 16])),
];

// The last step.
fn last_of(schedule: &Schedule) -> Option<Step> {
    let last = schedule.len().checked_sub(1)?;
    Some(schedule.step(last))
}

// Whether a text has so many steps, of which this is the last.
fn ends_with(alloc: Global, plan: &Plan, text: &str, len: u32, last: Step) -> bool {
    match Schedule::parse(alloc, text, plan) {
        Ok(schedule) => schedule.len() == len && last_of(&schedule) == Some(last),
        Err(_) => false,
    }
}

fn assert_steps(rt: &impl Abort, alloc: Global, plan: &Plan, rows: &[(&str, Step)]) {
    for (number, (text, step)) in rows.iter().enumerate() {
        assert!(rt; ends_with(alloc, plan, text, 1, *step), "row {number}");
    }
}

#[test]
fn a_line_is_a_step(rt: HostRuntime) -> Result<(), Fail> {
    let plan = wide(rt.alloc())?;
    assert_steps(&rt, rt.alloc(), &plan, &STEPS);
    Ok(())
}

fn assert_long(rt: &impl Abort, alloc: Global, plan: &Plan, rows: &[(&str, u32, Step)]) {
    for (text, len, last) in rows {
        assert!(rt; ends_with(alloc, plan, text, *len, *last), "{len} steps");
    }
}

#[test]
fn a_schedule_has_a_million_steps(rt: HostRuntime) -> Result<(), Fail> {
    let plan = wide(rt.alloc())?;
    assert_long(&rt, rt.alloc(), &plan, &LONG);
    Ok(())
}
