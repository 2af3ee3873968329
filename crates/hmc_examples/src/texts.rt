//! Texts of requests and of steps, drawn.

use crate::draws::Draws;
use crate::words::{Fragment, push_all};
use hmc_codes::{Flit, ZERO_FLIT};
use hmc_schedule::Step;
use hmc_session::step_named;
use hmc_step_text::step_line;
use std::alloc::AllocError;

/// Commands, each with what comes before the bytes of its line, and how many these are.
const COMMANDS: &[(&str, &str, u32)] = &[
    ("wr16", " ", 16),
    ("rd16", "", 0),
    ("wr32", " ", 32),
    ("rd64", "", 0),
    ("wr128", " ", 128),
    ("rd128", "", 0),
    ("wr256", " ", 256),
    ("rd256", "", 0),
    ("pwr16", " ", 16),
    ("pwr64", " ", 64),
    ("inc8", "", 0),
    ("pinc8", "", 0),
    ("add16", " ", 16),
    ("p2add8", " ", 16),
    ("swap16", " ", 16),
    ("casgt8", " ", 16),
    ("eq16", " ", 16),
    ("unit0", " ", 16),
    ("unit1", " ", 16),
    ("unit7", " ", 16),
    ("mdrd", "", 0),
    ("mdwr", " 0x", 4),
    ("mdwr", " 0x", 1),
];

/// Texts that ask for no request: a host, a cube and a command that aren't there, bytes that are
/// missing, a word too many, no request, two requests, and a fence alone.
const WRONG: &[&str] = &[
    "8 rd16 0 0\n",
    "0 rd16 8 0\n",
    "0 rd17 0 0\n",
    "0 wr16 0 0 00\n",
    "0 rd16 0 0 0\n",
    "# nothing\n",
    "0 rd16 0 0\n0 rd16 0 16\n",
    "0 fence\n",
];

/// What a line of noise has after its number: the mask.
const NOISE: &str = " 00000000000000000000000000000011\n";

// Appends so many bytes.
fn push_bytes(text: &mut String, draws: &mut Draws, count: u32) -> Result<(), AllocError> {
    for _ in 0..count {
        let byte = draws.byte_below(255);
        write!(text, "{byte:02x}")?;
    }
    Ok(())
}

// An address. Some are no multiple of 16, and are registers, and some are past the capacity of a
// small cube.
fn drawn_address(draws: &mut Draws) -> u32 {
    if draws.below(4) == 0 {
        return draws.below(20);
    }
    draws.below(80).wrapping_mul(16)
}

// A command.
fn drawn_command(draws: &mut Draws) -> (&'static str, &'static str, u32) {
    let place = draws.below(23) as usize;
    COMMANDS.get(place).copied().unwrap_or(("", "", 0))
}

// Appends a command for this cube.
fn push_command(text: &mut String, draws: &mut Draws, cube: u8) -> Result<(), AllocError> {
    let (word, before, count) = drawn_command(draws);
    let address = drawn_address(draws);
    push_all(
        text,
        &[
            Fragment::Text(word),
            Fragment::Text(" "),
            Fragment::Number(cube as u64),
            Fragment::Text(" "),
            Fragment::Number(address as u64),
            Fragment::Text(before),
        ],
    )?;
    push_bytes(text, draws, count)
}

// Appends a fence of one of these hosts, or none.
fn push_fence(text: &mut String, draws: &mut Draws, hosts: u8) -> Result<(), AllocError> {
    if draws.below(6) > 0 {
        return Ok(());
    }
    let fenced = draws.byte_below(hosts) as u64;
    push_all(
        text,
        &[Fragment::Number(fenced), Fragment::Text(" fence\n")],
    )
}

// Appends a request of one of these hosts to one of these cubes, with a fence before it or without.
fn push_request(
    text: &mut String,
    draws: &mut Draws,
    hosts: u8,
    cubes: u8,
) -> Result<(), AllocError> {
    let host = draws.byte_below(hosts);
    let cube = draws.byte_below(cubes);
    push_fence(text, draws, hosts)?;
    let poison = if draws.below(10) == 0 {
        " poison "
    } else {
        " "
    };
    push_all(
        text,
        &[Fragment::Number(host as u64), Fragment::Text(poison)],
    )?;
    push_command(text, draws, cube)
}

// A text that asks for no request.
fn drawn_wrong(draws: &mut Draws) -> &'static str {
    let place = draws.below(8) as usize;
    WRONG.get(place).copied().unwrap_or("")
}

/// Appends a request of one of these hosts to one of these cubes, with a fence before it or
/// without, or what asks for none.
pub fn push_drawn_request(
    text: &mut String,
    draws: &mut Draws,
    hosts: u8,
    cubes: u8,
) -> Result<(), AllocError> {
    if draws.below(8) == 0 {
        return text.push_str(drawn_wrong(draws));
    }
    push_request(text, draws, hosts, cubes)
}

// The number of a kind of step, or of none.
fn drawn_kind(draws: &mut Draws) -> u8 {
    let usual = draws.byte_below(11);
    if usual < 10 {
        return usual;
    }
    draws.byte_below(3).wrapping_add(10)
}

// A mask, which changes nothing or the last byte.
fn drawn_mask(draws: &mut Draws) -> Flit {
    let mut mask = ZERO_FLIT;
    if draws.below(8) == 0 {
        mask[15] = draws.byte_below(255);
    }
    mask
}

/// A step by numbers, of any kind, or numbers that name none. Some name parts that aren't there. Of
/// the landings some change the last byte.
pub fn drawn_step(draws: &mut Draws) -> Option<Step> {
    let kind = drawn_kind(draws);
    let a = draws.byte_below(4);
    let b = draws.byte_below(3);
    let c = draws.byte_below(2);
    let mask = drawn_mask(draws);
    step_named(kind, a, b, c, &mask)
}

/// Appends a line of so many rounds, and what comes after it.
pub fn push_rounds(text: &mut String, rounds: u32, after: &str) -> Result<(), AllocError> {
    push_all(
        text,
        &[
            Fragment::Text("round "),
            Fragment::Number(rounds as u64),
            Fragment::Text("\n"),
            Fragment::Text(after),
        ],
    )
}

// Appends a line of noise, or none.
fn push_noise(text: &mut String, draws: &mut Draws) -> Result<(), AllocError> {
    if draws.below(4) > 0 {
        return Ok(());
    }
    let every = draws.below(60).wrapping_add(10) as u64;
    push_all(
        text,
        &[
            Fragment::Text("noise "),
            Fragment::Number(every),
            Fragment::Text(NOISE),
        ],
    )
}

// Appends some rounds, with noise or without. After them a packet may go on that is arriving at
// cube 0.
fn push_drawn_rounds(text: &mut String, draws: &mut Draws) -> Result<(), AllocError> {
    push_noise(text, draws)?;
    let rounds = draws.below(16).wrapping_add(1);
    let through = if draws.below(3) == 0 {
        "through 0 0\n"
    } else {
        ""
    };
    push_rounds(text, rounds, through)
}

// Appends a single step, or nothing where the numbers name none.
fn push_drawn_step(text: &mut String, draws: &mut Draws) -> Result<(), AllocError> {
    match drawn_step(draws) {
        Some(step) => text.push_str(step_line(&step).as_str()),
        None => Ok(()),
    }
}

/// Appends some rounds, or a single step.
pub fn push_drawn_steps(text: &mut String, draws: &mut Draws) -> Result<(), AllocError> {
    if draws.below(4) == 0 {
        return push_drawn_step(text, draws);
    }
    push_drawn_rounds(text, draws)
}
