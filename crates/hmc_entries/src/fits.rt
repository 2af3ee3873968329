//! What the types of an entry's parts keep. Each of these functions does nothing; its contract is
//! the fact.

ghost use Rattle.std.specs.Prelude.{◌<◌, ◌^◌};
ghost use Rattle.hmc_codes.specs.Answer.{IsAnswer};
ghost use Rattle.hmc_codes.specs.Bytes.{IsBytes};
ghost use Rattle.hmc_codes.specs.Request.{IsRequest};
ghost use Rattle.hmc_codes.specs.Flit.{IsFlit};
ghost use Rattle.hmc_entries.specs.Parse.{IsTag, IsUnit, IsLift, IsGoal, IsStep, FitsTypes};
ghost use Rattle.hmc_schedule.specs.Plan.{HasFlit};

use crate::{Entry, Goal};
use hmc_codes::{Answer, Flit, Lift, Request, Unit};
use hmc_schedule::Step;

fn byte_fits(byte: u8)
    ensures { byte < 256 }
{
    let _ = byte;
}

fn bytes_fit(first: u8, second: u8, third: u8)
    ensures first { first < 256 }
    ensures second { second < 256 }
    ensures third { third < 256 }
{
    let _ = (first, second, third);
}

fn slice_fits(bytes: &[u8])
    ensures { IsBytes bytes.now }
{
    let _ = bytes.len();
}

fn flit_fits(direction: u8, flit: &Flit)
    ensures direction { direction < 256 }
    ensures flit { IsFlit flit.now }
{
    let _ = direction;
    slice_fits(flit);
}

fn tag_fits(tag: Option<u16>)
    ensures { IsTag tag }
{
    match tag {
        Some(_) | None => {}
    }
}

fn request_fits(host: u8, tag: Option<u16>, request: &Request)
    ensures host { host < 256 }
    ensures tag { IsTag tag }
    ensures request { IsRequest request.now }
{
    let _ = host;
    tag_fits(tag);
    request.invariant();
}

fn unit_fits(unit: Unit)
    ensures { IsUnit unit }
{
    match unit {
        Unit::Bank { cube, vault, bank } => bytes_fit(cube, vault, bank),
        Unit::Registers { cube } => byte_fits(cube),
    }
}

fn lift_fits(from: Lift)
    ensures { IsLift from }
{
    match from {
        Lift::Vault(vault) => byte_fits(vault),
        Lift::Registers => {}
    }
}

fn goal_fits(goal: Goal)
    ensures { IsGoal goal }
{
    match goal {
        Goal::Vault(vault) => byte_fits(vault),
        Goal::Registers => {}
        Goal::Port(port) => byte_fits(port),
    }
}

fn value_fits(value: u32)
    ensures { value < 2 ^ 32 }
{
    let _ = value;
}

fn answer_fits(answer: &Answer)
    ensures { IsAnswer answer.now }
{
    match answer {
        Answer::Read { payload, .. } => slice_fits(payload.as_slice()),
        Answer::Register { value } => value_fits(*value),
        _ => {}
    }
}

/// Does nothing. Its contract is what every step keeps: its numbers are bytes, and its mask, if it
/// has one, is 16 of them.
pub fn step_fits(step: &Step)
    ensures bytes { IsStep step.now }
    ensures mask { HasFlit step.now }
{
    match step {
        Step::Give(number)
        | Step::Send(number)
        | Step::Registers(number)
        | Step::Take(number)
        | Step::Unlock(number)
        | Step::Retire(number) => byte_fits(*number),
        Step::Land(direction, mask) => flit_fits(*direction, mask),
        Step::Shift(cube, other) | Step::Spread(cube, other) | Step::Through(cube, other) => {
            bytes_fit(*cube, *other, 0)
        }
        Step::Bank(cube, vault, bank) => bytes_fit(*cube, *vault, *bank),
        Step::Lift(cube, from) => {
            byte_fits(*cube);
            lift_fits(*from);
        }
    }
}

impl Entry {
    /// Does nothing. Its contract is what every entry keeps: its numbers, flits and parts fit their
    /// types.
    pub fn invariant(&self)
        ensures { FitsTypes self.now }
    {
        match self {
            Entry::Gave {
                host,
                tag,
                request,
                ..
            } => request_fits(*host, *tag, request),
            Entry::Sent {
                direction,
                flit,
                ..
            }
            | Entry::Landed {
                direction,
                flit,
                ..
            }
            | Entry::Passed { direction, flit } => flit_fits(*direction, flit),
            Entry::Shifted { cube, port, goal } => {
                bytes_fit(*cube, *port, 0);
                goal_fits(*goal);
            }
            Entry::Dropped { cube, port } => bytes_fit(*cube, *port, 0),
            Entry::Spread { cube, vault, bank } => bytes_fit(*cube, *vault, *bank),
            Entry::Executed {
                unit,
                host,
                tag,
                request,
                answer,
            } => {
                unit_fits(*unit);
                request_fits(*host, *tag, request);
                answer_fits(answer);
            }
            Entry::Lifted { cube, from, port } => {
                bytes_fit(*cube, *port, 0);
                lift_fits(*from);
            }
            Entry::Took { host, tag, answer } => {
                byte_fits(*host);
                tag_fits(Some(*tag));
                answer_fits(answer);
            }
            Entry::Through {
                cube,
                port,
                direction,
            } => bytes_fit(*cube, *port, *direction),
            Entry::Discarded { host: number }
            | Entry::Unlocked { direction: number }
            | Entry::Retired { slot: number } => byte_fits(*number),
            Entry::Idle { step, .. } => step_fits(step),
        }
    }
}
