//! A session that goes on and on: whenever a host waits, it is asked for more.

use crate::begun::begin;
use crate::draws::Draws;
use crate::orders::Order;
use crate::reading::Contents;
use crate::texts::push_rounds;
use crate::words::{Fragment, push_all};
use hmc_codes::Memory;
use hmc_schedule::Step;
use hmc_session::{Laid, NO_STOPS, NotTaken, Ran, Session, Stops};
use hmc_units::{Shipped, Slots};
use std::alloc::{AllocError, Global};

/// A session with shipped units, without a tape.
pub type Plain = Session<Slots<Shipped>>;

// Appends a read of 64 bytes.
fn push_read(text: &mut String, host: u8, cube: u8, address: u32) -> Result<(), AllocError> {
    push_all(
        text,
        &[
            Fragment::Number(host as u64),
            Fragment::Text(" rd64 "),
            Fragment::Number(cube as u64),
            Fragment::Text(" "),
            Fragment::Number(address as u64),
        ],
    )
}

// Whether a host has given all that it was asked for.
fn waits(session: &Plain, host: u8) -> bool {
    matches!(
        session.step_refusal(&Step::Give(host)),
        Some(NotTaken::Waits)
    )
}

// Asks a host for a drawn read. Returns whether it was asked.
fn ask(
    alloc: Global,
    session: &mut Plain,
    draws: &mut Draws,
    host: u8,
) -> Result<bool, AllocError> {
    let cube = draws.byte_below(session.plan().cube_count());
    let address = draws.below(64).wrapping_mul(16);
    let mut text = String::new(alloc);
    push_read(&mut text, host, cube, address)?;
    Ok(session.ask_line(alloc, text.as_str()).is_ok())
}

// Asks each host that has given all that it was asked for. Returns how many were asked.
fn ask_waiting(alloc: Global, session: &mut Plain, draws: &mut Draws) -> Result<u64, AllocError> {
    let mut asked = 0_u64;
    for host in 0..session.plan().hosts {
        if waits(session, host) && ask(alloc, session, draws, host)? {
            asked = asked.saturating_add(1);
        }
    }
    Ok(asked)
}

/// Takes laid steps up to the next entry of a chosen kind. Returns whether one came.
pub fn reaches(session: &mut Plain, laid: &mut Laid, most: u32, stops: &Stops) -> bool {
    matches!(session.run(laid, most, stops), Ran::Stopped)
}

/// The steps of so many rounds, laid down for the session.
pub fn laid_rounds(alloc: Global, session: &Plain, rounds: u32) -> Result<Laid, Memory> {
    let mut text = String::new(alloc);
    push_rounds(&mut text, rounds, "")?;
    match session.lay(alloc, text.as_str()) {
        Ok(laid) => Ok(laid),
        Err(_) => Err(Memory),
    }
}

// Takes all of the laid steps. Returns the number of entries of a chosen kind among theirs.
fn count_stops(session: &mut Plain, laid: &mut Laid, stops: &Stops) -> u64 {
    let mut count = 0_u64;
    for _ in 0..laid.len() {
        let most = laid.len();
        if !reaches(session, laid, most, stops) {
            return count;
        }
        count = count.saturating_add(1);
    }
    count
}

// Takes so many rounds, and returns how many answers hosts took.
fn take_rounds(alloc: Global, session: &mut Plain, rounds: u32) -> Result<u64, Memory> {
    let stops = Stops {
        took: true,
        ..NO_STOPS
    };
    let mut laid = laid_rounds(alloc, session, rounds)?;
    Ok(count_stops(session, &mut laid, &stops))
}

// How many requests were asked, and how many answers hosts took.
#[derive(Drop)]
struct Done {
    asked: u64,
    answers: u64,
}

// Asks the hosts that wait and takes ten rounds, and counts what was done.
fn take_piece(
    alloc: Global,
    session: &mut Plain,
    draws: &mut Draws,
    done: &mut Done,
) -> Result<(), Memory> {
    let asked = ask_waiting(alloc, session, draws)?;
    let answers = take_rounds(alloc, session, 10)?;
    done.asked = done.asked.saturating_add(asked);
    done.answers = done.answers.saturating_add(answers);
    Ok(())
}

// Appends what a long session did.
fn push_done(into: &mut String, done: &Done, taken: u32) -> Result<(), AllocError> {
    push_all(
        into,
        &[
            Fragment::Text("long: "),
            Fragment::Number(done.asked),
            Fragment::Text(" asked, "),
            Fragment::Number(done.answers),
            Fragment::Text(" answers, "),
            Fragment::Number(taken as u64),
            Fragment::Text(" steps\n"),
        ],
    )
}

// Takes the pieces of an order in a session, and appends what they did.
fn push_pieces(
    alloc: Global,
    session: &mut Plain,
    order: &Order<'_>,
    into: &mut String,
) -> Result<(), Memory> {
    let mut draws = Draws { state: order.seed };
    let mut done = Done {
        asked: 0,
        answers: 0,
    };
    for _ in 0..order.count {
        take_piece(alloc, session, &mut draws, &mut done)?;
    }
    push_done(into, &done, session.taken())?;
    Ok(())
}

/// Asks and steps the session of a case, over so many pieces of ten rounds. Appends how many
/// requests were asked, how many answers hosts took, and how many steps were taken.
pub fn push_long(
    alloc: Global,
    order: &Order<'_>,
    contents: &Contents,
    into: &mut String,
) -> Result<(), Memory> {
    let mut session = begin(alloc, contents.input.as_str())?.into_session();
    push_pieces(alloc, &mut session, order, into)
}
