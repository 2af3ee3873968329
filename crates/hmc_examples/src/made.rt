//! The cases of two numbers. The values are those of another program.

use crate::words::{Fragment, push_all};
use hmc_case::Case;
use hmc_codes::{Command, Join, Memory, Place, ZERO_FLIT};
use hmc_make::make;
use hmc_schedule::Step;
use std::alloc::Global;

/// It inverts one bit of a flit.
const ONE_BIT: [u8; 16] = [0, 0, 0, 0, 0, 0, 0, 0, 0, 0, 0, 0, 0, 0, 0, 1];

/// The steps of a round of the case of 3; a landing in direction 0 is the tenth.
const ROUND: u32 = 65;

// Whether a case has this request at this place.
fn asks(case: &Case, at: u32, command: Command, cube: u8, address: u64, first_byte: u8) -> bool {
    if at >= case.script().len() {
        return false;
    }
    let item = case.script().item(at);
    let request = &item.request;
    item.host == 0
        && !item.fenced
        && !item.poisoned
        && request.command == command
        && request.cube == cube
        && request.address == address
        && matches!(request.payload.as_slice(), [first, ..] if *first == first_byte)
}

// Whether a case has this step at this place.
fn steps(case: &Case, at: u32, step: Step) -> bool {
    at < case.schedule().len() && case.schedule().step(at) == step
}

// Whether a case has one cube, and the requests and steps of the case of 0. A round has 17 steps.
fn is_of_zero(case: &Case) -> bool {
    let has_sizes = case.cubes().len() == 1 && case.links().len() == 1;
    let has_texts = case.script().len() == 200 && case.schedule().len() == 102_000;
    let first = asks(case, 0, Command::Add16, 0, 8704, 0xe9);
    let last = asks(case, 199, Command::Wr64, 0, 2304, 0xb6);
    has_sizes && has_texts && first && last
}

// Whether the last of four links joins the last two cubes.
fn ends_in_chain(case: &Case) -> bool {
    let last = Join {
        a: Place::Port { cube: 2, port: 1 },
        b: Place::Port { cube: 3, port: 0 },
    };
    matches!(case.links(), [_, _, _, link] if link.join == last)
}

// Whether a case has four cubes in a chain, and the requests and steps of the case of 3. Landing
// 2,003 is the third of round 250.
fn is_of_three(case: &Case) -> bool {
    let has_sizes = case.cubes().len() == 4 && case.schedule().len() == 390_000;
    let third = asks(case, 2, Command::Wr64, 1, 4352, 0xcb);
    let changed = steps(case, 250 * ROUND + 11, Step::Land(2, ONE_BIT));
    let unchanged = steps(case, 250 * ROUND + 12, Step::Land(3, ZERO_FLIT));
    has_sizes && third && changed && unchanged && ends_in_chain(case)
}

// Whether the case of 0, or that of 3, has the parts that were worked out.
fn is_as_worked(alloc: Global, number: u64) -> Result<bool, Memory> {
    let case = make(alloc, number)?;
    if number == 0 {
        return Ok(is_of_zero(&case));
    }
    Ok(number == 3 && is_of_three(&case))
}

/// Appends whether the case of a number is as it was worked out.
pub fn push_made(alloc: Global, number: u64, into: &mut String) -> Result<(), Memory> {
    let word = if is_as_worked(alloc, number)? {
        ": as worked out\n"
    } else {
        ": differs\n"
    };
    push_all(
        into,
        &[
            Fragment::Text("made of "),
            Fragment::Number(number),
            Fragment::Text(word),
        ],
    )?;
    Ok(())
}
