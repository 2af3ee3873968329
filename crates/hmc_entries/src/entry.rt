//! What happened at one step.

use crate::{Cause, Goal};
use hmc_codes::{Answer, Flit, Lift, Request, Unit};
use hmc_packet::{Outcome, What};
use hmc_schedule::Step;

/// What happened at one step. A tag is None for a request that takes none.
#[derive(Clone, Copy)]
pub enum Entry {
    /// A host gave its next request to its link.
    Gave {
        host: u8,
        tag: Option<u16>,
        poisoned: bool,
        request: Request,
    },
    /// An end of a link put a flit on the line of a direction.
    Sent {
        direction: u8,
        what: What,
        flit: Flit,
    },
    /// A flit landed at the other end; it is shown as its mask left it.
    Landed {
        direction: u8,
        flit: Flit,
        outcome: Outcome,
    },
    /// The front of a port's buffer moved on.
    Shifted {
        cube: u8,
        port: u8,
        goal: Goal,
    },
    /// The front of a port's buffer was poisoned, and was dropped.
    Dropped {
        cube: u8,
        port: u8,
    },
    /// The front of a vault's queue moved to the queue of its bank.
    Spread {
        cube: u8,
        vault: u8,
        bank: u8,
    },
    /// A unit executed the request at the front of its queue.
    Executed {
        unit: Unit,
        host: u8,
        tag: Option<u16>,
        request: Request,
        answer: Answer,
    },
    /// An answer moved to the output queue of a port.
    Lifted {
        cube: u8,
        from: Lift,
        port: u8,
    },
    /// A host took an answer.
    Took {
        host: u8,
        tag: u16,
        answer: Answer,
    },
    /// The front of a host's buffer was poisoned, and was dropped.
    Discarded {
        host: u8,
    },
    /// A packet that was still arriving at a port went on, onto a direction.
    Through {
        cube: u8,
        port: u8,
        direction: u8,
    },
    /// The receiver of a direction lost its framing.
    Unlocked {
        direction: u8,
    },
    /// The logic unit of a slot was retired.
    Retired {
        slot: u8,
    },
    /// A flit landed, and a check succeeded over flits that a mask changed. No step follows.
    Passed {
        direction: u8,
        flit: Flit,
    },
    /// The step did nothing.
    Idle {
        step: Step,
        cause: Cause,
    },
}
