//! The same steps, taken in several ways, so that bench/session can count their instructions. The
//! case has one host, one link and one cube of one vault and one bank, and its host is finished.

use crate::begun::{begin, case_of, units};
use crate::long::{Plain, laid_rounds, reaches};
use crate::orders::{Order, Way};
use crate::reading::Contents;
use crate::words::{Fragment, push_all};
use hmc_case::Case;
use hmc_codes::{Lift, Memory, ZERO_FLIT};
use hmc_outside::MemorySink;
use hmc_replay::{Extent, replay_on};
use hmc_schedule::Step;
use hmc_session::{Laid, NO_STOPS};
use std::alloc::{AllocError, Global};

/// The steps of a round.
const ROUND: [Step; 12] = [
    Step::Give(0),
    Step::Send(0),
    Step::Send(1),
    Step::Land(0, ZERO_FLIT),
    Step::Land(1, ZERO_FLIT),
    Step::Shift(0, 0),
    Step::Spread(0, 0),
    Step::Bank(0, 0, 0),
    Step::Registers(0),
    Step::Lift(0, Lift::Vault(0)),
    Step::Lift(0, Lift::Registers),
    Step::Take(0),
];

/// The line of a case without steps.
const NO_SCHEDULE: &str = "schedule = ''\n";

/// More bytes than the final lines of the case have.
const ROOM: usize = 4_096;

// Takes the steps of a round, each as a value.
fn take_round(session: &mut Plain) {
    for step in &ROUND {
        let _ = session.step(step);
    }
}

// Takes so many rounds, each step as a value.
fn take_rounds(session: &mut Plain, rounds: u32) {
    for _ in 0..rounds {
        take_round(session);
    }
}

// Takes laid steps in one run.
fn take_run(session: &mut Plain, laid: &mut Laid) {
    let most = laid.len();
    let _ = reaches(session, laid, most, &NO_STOPS);
}

// Takes laid steps one by one.
fn take_each(session: &mut Plain, laid: &mut Laid) {
    for _ in 0..laid.len() {
        let _ = session.next(laid);
    }
}

// Takes so many rounds in a session: each step as a value, or laid down ahead, one by one or in one
// run. Returns how many steps were taken.
fn taken_by(alloc: Global, session: &mut Plain, way: Way, rounds: u32) -> Result<u32, Memory> {
    session.finish(0);
    let mut laid = laid_rounds(alloc, session, rounds)?;
    match way {
        Way::Steps => take_rounds(session, rounds),
        Way::Next => take_each(session, &mut laid),
        _ => take_run(session, &mut laid),
    }
    Ok(session.taken())
}

// The same in a session of this case.
fn in_session(alloc: Global, way: Way, case: &str, rounds: u32) -> Result<u32, Memory> {
    let mut session = begin(alloc, case)?.into_session();
    taken_by(alloc, &mut session, way, rounds)
}

// Appends the case without steps, with so many rounds.
fn push_with_rounds(into: &mut String, case: &str, rounds: u32) -> Result<(), AllocError> {
    let (before, after) = case.split_once(NO_SCHEDULE).unwrap_or((case, ""));
    push_all(
        into,
        &[
            Fragment::Text(before),
            Fragment::Text("schedule = 'round "),
            Fragment::Number(rounds as u64),
            Fragment::Text("'\n"),
            Fragment::Text(after),
        ],
    )
}

// The case without steps, with so many rounds.
fn case_of_rounds(alloc: Global, case: &str, rounds: u32) -> Result<Case, Memory> {
    let mut text = String::new(alloc);
    push_with_rounds(&mut text, case, rounds)?;
    case_of(alloc, text.as_str())
}

// Whether a case is replayed to its end as the program does it, without the lines of its entries.
fn is_replayed(alloc: Global, case: &Case) -> Result<bool, Memory> {
    let mut sink = MemorySink::new(alloc, ROOM, &[])?;
    match replay_on(alloc, &mut sink, Extent::Short, case, units(alloc)?) {
        Ok((ended, _)) => Ok(matches!(ended, Ok(false))),
        Err(memory) => Err(memory),
    }
}

// Takes so many rounds as the program does. Returns the number of rounds, or 0 where not all were
// taken.
fn by_program(alloc: Global, case: &str, rounds: u32) -> Result<u32, Memory> {
    let case = case_of_rounds(alloc, case, rounds)?;
    let is_done = is_replayed(alloc, &case)?;
    Ok(if is_done { rounds } else { 0 })
}

/// Takes the rounds of an order, and appends what they came to.
pub fn push_timed(
    alloc: Global,
    order: &Order<'_>,
    contents: &Contents,
    into: &mut String,
) -> Result<(), Memory> {
    let (case, rounds) = (contents.input.as_str(), order.count);
    let done = match order.way {
        Way::Program => by_program(alloc, case, rounds)?,
        _ => in_session(alloc, order.way, case, rounds)?,
    };
    push_all(
        into,
        &[
            Fragment::Text(order.word),
            Fragment::Text(": "),
            Fragment::Number(done as u64),
            Fragment::Text("\n"),
        ],
    )?;
    Ok(())
}
