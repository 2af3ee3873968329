//! A session that draws drive: by turns it is asked for requests, as a text or by values, takes
//! steps, by numbers or as they are laid down, and a host is finished. After each call the line of
//! the latest entry is kept, as a caller sees it.
//!
//! A call that is out of memory is made once more: it must have changed nothing, or else what
//! follows differs from the report of the tape.

use crate::begun::{WithTape, begin};
use crate::draws::Draws;
use crate::texts::{drawn_step, push_drawn_request};
use hmc_codes::{LineText, MOST_HOSTS, Memory};
use hmc_net::Went;
use hmc_report::Part;
use hmc_schedule::Step;
use hmc_session::{LineNotAsked, NotAsked, NotTaken};
use hmc_tape::NotTaped;
use std::alloc::{AllocError, Global};

/// How often something happened.
#[derive(Drop)]
pub struct Counts {
    /// Requests that were asked.
    pub asked: u64,
    /// Texts that asked for none, and requests of finished hosts.
    pub not_asked: u64,
    /// Steps that waited.
    pub waited: u64,
    /// Steps that were refused for another cause, and texts that are no schedule.
    pub refused: u64,
    /// Calls that were out of memory.
    pub memory: u64,
}

/// A session, and what a caller saw of it.
#[derive(Drop)]
pub struct Drawn {
    /// The session.
    pub session: WithTape,
    /// What the next calls follow from.
    pub draws: Draws,
    /// After how many steps the latest line was looked at.
    pub looked: Vec<u32>,
    /// These lines, and at the end the final lines.
    pub lines: String,
    /// What happened.
    pub counts: Counts,
}

impl Drawn {
    /// How many steps were taken.
    pub fn taken(&self) -> u32 {
        self.session.session().taken()
    }

    /// Counts a call that was out of memory.
    pub fn count_memory(&mut self) {
        self.counts.memory = self.counts.memory.saturating_add(1);
    }

    /// Keeps the line of the latest step, unless it is kept already.
    pub fn look(&mut self) -> Result<(), Memory> {
        let taken = self.taken();
        if self.looked.last().copied().unwrap_or(0) == taken {
            return Ok(());
        }
        self.keep_line()?;
        self.looked.push(taken)?;
        Ok(())
    }

    // Keeps the line of the latest step.
    fn keep_line(&mut self) -> Result<(), AllocError> {
        let mut line = LineText::new();
        self.session.session().line(&mut line);
        self.lines.push_str(line.as_str())
    }

    // Asks for the request of a text by its values.
    fn ask_by_values(&mut self, alloc: Global, text: &str) -> Result<(), LineNotAsked> {
        let item = match self.session.session().item_of(alloc, text) {
            Ok(item) => item,
            Err(refusal) => return Err(refusal),
        };
        match self
            .session
            .ask(item.host, item.fenced, item.poisoned, &item.request)
        {
            Ok(()) => Ok(()),
            Err(refusal) => Err(LineNotAsked::Refused(refusal)),
        }
    }

    // Asks for the request of a text: by its values, or by the text.
    fn ask(&mut self, alloc: Global, text: &str, by_values: bool) -> Result<(), LineNotAsked> {
        if by_values {
            return self.ask_by_values(alloc, text);
        }
        self.session.ask_line(alloc, text)
    }

    // Asks for the request of a text, and returns whether it was asked.
    fn is_asked(&mut self, alloc: Global, text: &str, by_values: bool) -> bool {
        let asked = self.ask(alloc, text, by_values);
        if let Err(LineNotAsked::Refused(NotAsked::Memory)) = asked {
            self.count_memory();
            return self.ask(alloc, text, by_values).is_ok();
        }
        asked.is_ok()
    }

    // Appends a drawn request.
    fn push_request(&mut self, text: &mut String) -> Result<(), AllocError> {
        let plan = self.session.session().plan();
        push_drawn_request(text, &mut self.draws, plan.hosts, plan.cube_count())
    }

    // Asks for the request of a drawn text.
    fn ask_drawn(&mut self, alloc: Global) -> Result<(), AllocError> {
        let mut text = String::new(alloc);
        self.push_request(&mut text)?;
        let by_values = self.draws.below(2) == 0;
        if self.is_asked(alloc, text.as_str(), by_values) {
            self.counts.asked = self.counts.asked.saturating_add(1);
        } else {
            self.counts.not_asked = self.counts.not_asked.saturating_add(1);
        }
        Ok(())
    }

    // Takes a step.
    fn step(&mut self, step: &Step) -> Result<Went, NotTaped> {
        let went = self.session.step(step);
        if let Err(NotTaped::Memory) = went {
            self.count_memory();
            return self.session.step(step);
        }
        went
    }

    // Takes a drawn step.
    fn step_drawn(&mut self) -> Result<(), Memory> {
        let Some(step) = drawn_step(&mut self.draws) else {
            return Ok(());
        };
        match self.step(&step) {
            Ok(_) => self.look(),
            Err(NotTaped::Refused(NotTaken::Waits)) => {
                self.counts.waited = self.counts.waited.saturating_add(1);
                Ok(())
            }
            Err(_) => {
                self.counts.refused = self.counts.refused.saturating_add(1);
                Ok(())
            }
        }
    }

    // One turn.
    fn turn(&mut self, alloc: Global) -> Result<(), Memory> {
        let way = self.draws.below(200);
        if way < 60 {
            self.ask_drawn(alloc)?;
            return Ok(());
        }
        if way < 130 {
            return self.step_drawn();
        }
        if way < 199 {
            return self.take_drawn_text(alloc);
        }
        let host = self.draws.byte_below(10);
        if host < MOST_HOSTS {
            self.session.finish(host);
        }
        Ok(())
    }

    /// Takes so many turns.
    pub fn take_turns(&mut self, alloc: Global, turns: u32) -> Result<(), Memory> {
        for _ in 0..turns {
            self.turn(alloc)?;
        }
        Ok(())
    }

    // The final lines.
    fn final_text(&self, alloc: Global) -> Result<String, Memory> {
        let mut last = String::new(alloc);
        self.session
            .session()
            .final_lines(alloc, Part::Memory, &mut last)?;
        Ok(last)
    }

    // The final lines, asked for once more where the session was out of memory.
    fn last_lines(&mut self, alloc: Global) -> Result<String, Memory> {
        if let Ok(last) = self.final_text(alloc) {
            return Ok(last);
        }
        self.count_memory();
        self.final_text(alloc)
    }

    /// Keeps the final lines. After a landing that passed there are none.
    pub fn look_at_end(&mut self, alloc: Global) -> Result<(), Memory> {
        if self.session.session().has_passed() {
            return Ok(());
        }
        let last = self.last_lines(alloc)?;
        self.lines.push_str(last.as_str())?;
        Ok(())
    }
}

/// The session of a case without requests and steps. Its turns follow from a seed.
pub fn begin_drawn(alloc: Global, net: &str, seed: u64) -> Result<Drawn, Memory> {
    let session = begin(alloc, net)?;
    Ok(Drawn {
        session,
        draws: Draws { state: seed },
        looked: Vec::new(alloc),
        lines: String::new(alloc),
        counts: Counts {
            asked: 0,
            not_asked: 0,
            waited: 0,
            refused: 0,
            memory: 0,
        },
    })
}
