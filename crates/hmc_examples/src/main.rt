//! Compares whole runs with what is stored of them: reports and bounds of cases. Sessions are
//! driven by draws, and compared with what the program reports of the cases on their tapes.
//!
//! Each line of standard input is an order `WAY NAME SEED COUNT`. NAME is that of files in the
//! folder; a case is NAME.toml.
//!
//! - `report` and `bound`: the words `run` and `bound` of the program, for a case. The text has to
//!   be that of NAME.report or NAME.bound, and the status the count (`stored`).
//! - `make`: the program makes the case of the seed, and NAME.report has its report.
//! - `packets`, `values` and `logs`: the rows of NAME.txt (`packets`, `values`, `logs`).
//! - `writes` and `reads`: sinks and sources fail at each of their calls (`failing`).
//! - `stamp`: what a unit of the caller's bench does after a replay (`stamped`), whose report is
//!   whole where the seed is not 0.
//! - `built`: what a case has, and the network of it (`built`).
//! - `made`: what the case of the seed has (`made`).
//! - `draw`: so many turns of a session with a tape (`drawn`), of a case without requests and
//!   steps. The seed decides all of it. At the end the program runs the case on the tape. Each line
//!   that a caller of the session saw has to be the report's line of this step, and so have the
//!   final lines.
//! - `long`: so many pieces of a session that is asked whenever a host waits (`long`). As many
//!   answers have to come as requests were asked, but for those under way at the end.
//! - `steps`, `next`, `run` and `program`: so many rounds, for bench/session (`timed`). A round has
//!   twelve steps.
//!
//! The counts say what was tried, and where two lines differ, both are printed. The stored output
//! comes from a model in another language, which was driven by the same draws.
//! bench/refused-sessions refuses each call that takes memory in turn.
#![tactic(auto)]

mod begun;
mod built;
mod compared;
mod drawn;
mod draws;
mod failing;
mod laid;
mod logs;
mod long;
mod made;
mod orders;
mod packets;
mod program;
mod reading;
mod replayed;
mod stamped;
mod stored;
mod texts;
mod timed;
mod values;
mod words;

use built::push_built;
use compared::push_drawn;
use failing::{push_reads, push_writes};
use hmc_codes::Memory;
use logs::push_logs;
use long::push_long;
use made::push_made;
use orders::{Answer, Order, Way, order_of};
use packets::push_packets;
use reading::{Contents, contents_of};
use stamped::push_stamp;
use std::alloc::Global;
use std::io;
use std::rt::Files;
use stored::push_stored;
use timed::push_timed;
use values::push_values;

// Does what an order says to do with a session, or with a replay of a case.
fn drive_case(
    alloc: Global,
    order: &Order<'_>,
    contents: &Contents,
    into: &mut Answer,
) -> Result<(), Memory> {
    match order.way {
        Way::Draw => push_drawn(alloc, order, contents, into),
        Way::Long => push_long(alloc, order, contents, &mut into.text),
        Way::Stamp => push_stamp(alloc, order, contents, &mut into.text),
        Way::Built => push_built(alloc, order, contents, &mut into.text),
        _ => push_timed(alloc, order, contents, &mut into.text),
    }
}

// Does what an order says.
fn follow(
    alloc: Global,
    order: &Order<'_>,
    contents: &Contents,
    into: &mut Answer,
) -> Result<(), Memory> {
    match order.way {
        Way::Report | Way::Bound | Way::Make => {
            push_stored(alloc, order, contents, &mut into.text)
        }
        Way::Packets => push_packets(alloc, order, contents, &mut into.text),
        Way::Reads => push_reads(alloc, order, contents, &mut into.text),
        Way::Writes => push_writes(alloc, order, contents, &mut into.text),
        Way::Made => push_made(alloc, order.seed, &mut into.text),
        _ => drive_case(alloc, order, contents, into),
    }
}

// Reads the files of an order, and does what it says. Of the values of loads, and of logs, each row
// has files of its own.
fn follow_with_files(
    rt: &(impl Files + AllocGlobal),
    order: &Order<'_>,
    into: &mut Answer,
) -> Result<(), io::Error> {
    let contents = contents_of(rt, order.name, order.input_ending, order.stored_ending)?;
    if let Way::Values = order.way {
        return push_values(rt, order, contents.stored.as_str(), &mut into.text);
    }
    if let Way::Logs = order.way {
        return push_logs(rt, order, contents.stored.as_str(), &mut into.text);
    }
    match follow(rt.alloc(), order, &contents, into) {
        Ok(()) => Ok(()),
        Err(_) => Err(io::Error::from(io::ErrorKind::OutOfMemory)),
    }
}

// Does what an order says, and prints what came of it.
fn obey(
    rt: &(impl Files + AllocGlobal + Print + Eprint),
    order: &Order<'_>,
) -> Result<(), io::Error> {
    let mut answer = Answer {
        text: String::new(rt.alloc()),
        memory: 0,
    };
    follow_with_files(rt, order, &mut answer)?;
    if answer.memory > 0 {
        eprintln!(rt; "out of memory: {}", answer.memory)?;
    }
    let text = answer.text.as_str();
    print!(rt; "{text}")
}

fn main(rt: HostRuntime) -> Result<(), io::Error> {
    let orders = io::read_to_string(rt.alloc(), rt.reader())?;
    for line in orders.as_str().lines() {
        if let Some(order) = order_of(line) {
            obey(&rt, &order)?;
        }
    }
    Ok(())
}
