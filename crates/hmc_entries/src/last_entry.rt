//! The entry of the latest step, in one place.
//!
//! A step writes over the entry of the one before, so that nothing large is moved. Four bytes say
//! which entry it is, and have the parts that most entries have: each step writes these. Every
//! other part has a field of its own: where the entry has no such part, the field keeps old
//! content, which no contract sees.

ghost use Rattle.std.specs.Prelude.{◌≡◌, ◌<◌, ◌≤◌, ◌+◌, ◌++◌, [], length};
ghost use Rattle.hmc_entries.specs.declared.entry.Entry.{Entry};
ghost use Rattle.hmc_entries.specs.Event.{event_of, cause_of, is_passed, IsLongFlit};
ghost use Rattle.hmc_entries.specs.IdleStep.{idle_step};
ghost use Rattle.hmc_entries.specs.Lines.{line_of};
ghost use Rattle.hmc_schedule.specs.declared.step.Step.{Step};

use crate::idle_line::idle_line;
use crate::line::{
    discarded_line, dropped_line, executed_line, gave_line, landed_line, lifted_line, passed_line,
    retired_line, sent_line, shifted_line, spread_line, through_line, took_line, unlocked_line,
};
use crate::{Cause, Entry, Event, Goal, IdleStep};
use arrayvec::ArrayString;
use hmc_codes::{
    Answer, Command, Flit, Gathered, Lift, Line, LineText, Payload, Request, Unit, ZERO_FLIT,
};
use hmc_packet::{Outcome, What};
use std::marker::Model;

// The variant of an entry, with its short parts: four bytes.
#[derive(Clone, Copy)]
pub(crate) enum Short {
    Gave { host: u8, poisoned: bool },
    Sent { direction: u8, what: What },
    Landed { direction: u8, outcome: Outcome },
    Shifted { cube: u8, port: u8 },
    Dropped { cube: u8, port: u8 },
    Spread { cube: u8, vault: u8, bank: u8 },
    Executed { host: u8 },
    Lifted { cube: u8, port: u8 },
    Took { host: u8 },
    Discarded { host: u8 },
    Through { cube: u8, port: u8, direction: u8 },
    Unlocked { direction: u8 },
    Retired { slot: u8 },
    Passed { direction: u8 },
    Idle { cause: Cause },
}

/// The entry of the latest step. Contracts see it as an `Entry`.
#[derive(Drop)]
pub struct LastEntry {
    short: Short,
    step: IdleStep,
    flit: Flit,
    // The tag of what was given or executed, and that of an answer that was taken.
    tag: Option<u16>,
    taken: u16,
    unit: Unit,
    goal: Goal,
    from: Lift,
    request: Request,
    answer: Answer,
}

impl Model for LastEntry {
    ghost use Rattle.hmc_entries.specs.declared.entry.Entry.{Entry};
    ghost use Rattle.hmc_entries.specs.IdleStep.{idle_step};
    ghost use Rattle.hmc_entries.specs.LastEntry.{entry_of};

    ghost Value = { Entry };

    ghost view = { λ e. entry_of e.short (record {
      step = idle_step e.step;
      flit = e.flit;
      tag = e.tag;
      taken = e.taken;
      unit = e.unit;
      goal = e.goal;
      from = e.from;
      request = e.request;
      answer = e.answer;
    }) };
}

impl LastEntry {
    /// The entry before the first step: an idle one.
    pub fn new() -> Self
        ensures { result ≡ Entry.Idle (Step.Give 0) Cause.Empty }
    {
        LastEntry {
            short: Short::Idle {
                cause: Cause::Empty,
            },
            step: IdleStep::Give(0),
            flit: ZERO_FLIT,
            tag: None,
            taken: 0,
            unit: Unit::Registers { cube: 0 },
            goal: Goal::Registers,
            from: Lift::Registers,
            request: Request {
                command: Command::Rd16,
                cube: 0,
                address: 0,
                payload: Payload::empty(),
            },
            answer: Answer::Silent,
        }
    }

    /// A host gave a request to its link.
    pub fn gave(&mut self, host: u8, tag: Option<u16>, poisoned: bool, request: &Request)
        ensures { self.new ≡ Entry.Gave host tag poisoned request.now }
    {
        self.short = Short::Gave { host, poisoned };
        self.tag = tag;
        self.request = *request;
    }

    /// An end of a link put a flit on the line of a direction.
    pub fn sent(&mut self, direction: u8, what: What, flit: &Flit)
        ensures { self.new ≡ Entry.Sent direction what flit.now }
    {
        self.short = Short::Sent { direction, what };
        self.flit = *flit;
    }

    /// A flit landed at the other end.
    pub fn landed(&mut self, direction: u8, flit: &Flit, outcome: Outcome)
        ensures { self.new ≡ Entry.Landed direction flit.now outcome }
    {
        self.short = Short::Landed { direction, outcome };
        self.flit = *flit;
    }

    /// The front of a port's buffer moved on.
    pub fn shifted(&mut self, cube: u8, port: u8, goal: Goal)
        ensures { self.new ≡ Entry.Shifted cube port goal }
    {
        self.short = Short::Shifted { cube, port };
        self.goal = goal;
    }

    /// The front of a port's buffer was poisoned, and was dropped.
    pub fn dropped(&mut self, cube: u8, port: u8)
        ensures { self.new ≡ Entry.Dropped cube port }
    {
        self.short = Short::Dropped { cube, port };
    }

    /// The front of a vault's queue moved to the queue of its bank.
    pub fn spread(&mut self, cube: u8, vault: u8, bank: u8)
        ensures { self.new ≡ Entry.Spread cube vault bank }
    {
        self.short = Short::Spread { cube, vault, bank };
    }

    /// A unit executed a request.
    pub fn executed(
        &mut self,
        unit: Unit,
        host: u8,
        tag: Option<u16>,
        request: &Request,
        answer: &Answer,
    )
        ensures { self.new ≡ Entry.Executed unit host tag request.now answer.now }
    {
        self.short = Short::Executed { host };
        self.unit = unit;
        self.tag = tag;
        self.request = *request;
        self.answer = *answer;
    }

    /// An answer moved to the output queue of a port.
    pub fn lifted(&mut self, cube: u8, from: Lift, port: u8)
        ensures { self.new ≡ Entry.Lifted cube from port }
    {
        self.short = Short::Lifted { cube, port };
        self.from = from;
    }

    /// A host took an answer.
    pub fn took(&mut self, host: u8, tag: u16, answer: &Answer)
        ensures { self.new ≡ Entry.Took host tag answer.now }
    {
        self.short = Short::Took { host };
        self.taken = tag;
        self.answer = *answer;
    }

    /// The front of a host's buffer was poisoned, and was dropped.
    pub fn discarded(&mut self, host: u8)
        ensures { self.new ≡ Entry.Discarded host }
    {
        self.short = Short::Discarded { host };
    }

    /// A packet that was still arriving at a port went on, onto a direction.
    pub fn through(&mut self, cube: u8, port: u8, direction: u8)
        ensures { self.new ≡ Entry.Through cube port direction }
    {
        self.short = Short::Through {
            cube,
            port,
            direction,
        };
    }

    /// The receiver of a direction lost its framing.
    pub fn unlocked(&mut self, direction: u8)
        ensures { self.new ≡ Entry.Unlocked direction }
    {
        self.short = Short::Unlocked { direction };
    }

    /// The logic unit of a slot was retired.
    pub fn retired(&mut self, slot: u8)
        ensures { self.new ≡ Entry.Retired slot }
    {
        self.short = Short::Retired { slot };
    }

    /// A flit landed, and a check succeeded over flits that a mask changed.
    pub fn passed(&mut self, direction: u8, flit: &Flit)
        ensures { self.new ≡ Entry.Passed direction flit.now }
    {
        self.short = Short::Passed { direction };
        self.flit = *flit;
    }

    /// The step did nothing.
    #[inline(always)]
    pub fn idle(&mut self, step: IdleStep, cause: Cause)
        ensures { self.new ≡ Entry.Idle (idle_step step) cause }
    {
        self.short = Short::Idle { cause };
        self.step = step;
    }

    /// What the step is counted as.
    pub fn event(&self) -> Event
        ensures { result ≡ event_of self.now }
    {
        match self.short {
            Short::Gave { host, .. } => Event::Gave { host },
            Short::Sent { direction, .. } => Event::Sent { direction },
            Short::Landed { direction, outcome } => Event::Landed { direction, outcome },
            Short::Unlocked { direction } => Event::Unlocked { direction },
            Short::Took { host, .. } => Event::Took { host },
            Short::Executed { .. } => Event::Executed { unit: self.unit },
            Short::Dropped { cube, .. } => Event::Dropped { cube },
            _ => Event::Other,
        }
    }

    /// A flit that landed has 16 bytes.
    pub fn flit_is_long(&self)
        ensures { IsLongFlit self.now }
    {
        is_long(&self.flit);
    }

    /// Why the step did nothing, if it did nothing.
    pub fn cause(&self) -> Option<Cause>
        ensures { result ≡ cause_of self.now }
    {
        match self.short {
            Short::Idle { cause } => Some(cause),
            _ => None,
        }
    }

    /// Whether it is a landing that passed.
    pub fn has_passed(&self) -> bool
        ensures { result ≡ is_passed self.now }
    {
        matches!(self.short, Short::Passed { .. })
    }

    /// Writes the line of the entry into an empty text, with a line feed at its end.
    #[inline(always)]
    pub fn line(&self, into: &mut LineText)
        requires empty { into.old.bytes ≡ [] }
        ensures text { into.new.bytes ≡ line_of self.now }
        ensures short { length (line_of self.now) < 2048 }
    {
        self.append(into);
    }

    // Appends the line.
    #[tactic(auto, using(crate::proofs::IdleWords::words_of_step), unfolding(crate::specs::Lines::line_of))]
    #[inline(always)]
    fn append<const N: usize>(&self, into: &mut ArrayString<N>)
        requires room { length into.old.bytes + 2048 ≤ N }
        ensures text { into.new.bytes ≡ into.old.bytes ++ line_of self.now }
        ensures short { length into.new.bytes < length into.old.bytes + 2048 }
    {
        match self.short {
            Short::Idle { cause } => idle_line(into, self.step, cause),
            Short::Sent { direction, what } => sent_line(into, direction, what, &self.flit),
            Short::Landed { direction, outcome } => {
                landed_line(into, direction, &self.flit, outcome)
            }
            _ => self.append_other(into),
        }
    }

    // The same of any entry. It stands out of line, as most entries are of the kinds above.
    #[tactic(auto, using(crate::proofs::IdleWords::words_of_step), unfolding(crate::specs::Lines::line_of))]
    #[inline(never)]
    fn append_other<const N: usize>(&self, into: &mut ArrayString<N>)
        requires room { length into.old.bytes + 2048 ≤ N }
        ensures text { into.new.bytes ≡ into.old.bytes ++ line_of self.now }
        ensures short { length into.new.bytes < length into.old.bytes + 2048 }
    {
        match self.short {
            Short::Gave { host, poisoned } => {
                gave_line(into, host, self.tag, poisoned, &self.request)
            }
            Short::Sent { direction, what } => sent_line(into, direction, what, &self.flit),
            Short::Landed { direction, outcome } => {
                landed_line(into, direction, &self.flit, outcome)
            }
            Short::Shifted { cube, port } => shifted_line(into, cube, port, self.goal),
            Short::Dropped { cube, port } => dropped_line(into, cube, port),
            Short::Spread { cube, vault, bank } => spread_line(into, cube, vault, bank),
            Short::Executed { host } => {
                executed_line(into, self.unit, host, self.tag, &self.request, &self.answer)
            }
            Short::Lifted { cube, port } => lifted_line(into, cube, self.from, port),
            Short::Took { host } => took_line(into, host, self.taken, &self.answer),
            Short::Discarded { host } => discarded_line(into, host),
            Short::Through {
                cube,
                port,
                direction,
            } => through_line(into, cube, port, direction),
            Short::Unlocked { direction } => unlocked_line(into, direction),
            Short::Retired { slot } => retired_line(into, slot),
            Short::Passed { direction } => passed_line(into, direction, &self.flit),
            Short::Idle { cause } => idle_line(into, self.step, cause),
        }
    }

    /// A copy of the entry.
    pub fn entry(&self) -> Entry
        ensures { result ≡ self.now }
    {
        match self.short {
            Short::Gave { host, poisoned } => Entry::Gave {
                host,
                tag: self.tag,
                poisoned,
                request: self.request,
            },
            Short::Sent { direction, what } => Entry::Sent {
                direction,
                what,
                flit: self.flit,
            },
            Short::Landed { direction, outcome } => Entry::Landed {
                direction,
                flit: self.flit,
                outcome,
            },
            Short::Shifted { cube, port } => Entry::Shifted {
                cube,
                port,
                goal: self.goal,
            },
            Short::Dropped { cube, port } => Entry::Dropped { cube, port },
            Short::Spread { cube, vault, bank } => Entry::Spread { cube, vault, bank },
            Short::Executed { host } => Entry::Executed {
                unit: self.unit,
                host,
                tag: self.tag,
                request: self.request,
                answer: self.answer,
            },
            Short::Lifted { cube, port } => Entry::Lifted {
                cube,
                from: self.from,
                port,
            },
            Short::Took { host } => Entry::Took {
                host,
                tag: self.taken,
                answer: self.answer,
            },
            Short::Discarded { host } => Entry::Discarded { host },
            Short::Through {
                cube,
                port,
                direction,
            } => Entry::Through {
                cube,
                port,
                direction,
            },
            Short::Unlocked { direction } => Entry::Unlocked { direction },
            Short::Retired { slot } => Entry::Retired { slot },
            Short::Passed { direction } => Entry::Passed {
                direction,
                flit: self.flit,
            },
            Short::Idle { cause } => Entry::Idle {
                step: self.step.step(),
                cause,
            },
        }
    }
}

impl Line for LastEntry {
    ghost text = { line_of };

    #[inline(always)]
    fn put(&self, into: &mut Gathered) {
        self.append(into);
    }
}

// A flit is 16 bytes.
fn is_long(flit: &Flit)
    ensures { length flit.now ≡ 16 }
{
    let _ = flit.len();
}
