//! A drawn session takes steps as they are laid down.

use crate::drawn::Drawn;
use crate::draws::Draws;
use crate::texts::push_drawn_steps;
use hmc_codes::Memory;
use hmc_schedule::ScheduleFault;
use hmc_session::{Laid, Stops};
use hmc_tape::NotTaped;
use std::alloc::Global;

// Whether each of the first kinds of entries is chosen: with one draw of four.
fn drawn_kinds(draws: &mut Draws) -> [bool; 14] {
    let mut kinds = [false; 14];
    for kind in 0..14_usize {
        let is_chosen = draws.below(4) == 0;
        kinds[kind] = is_chosen;
    }
    kinds
}

// Chosen kinds of entries. Idle ones are among them with one draw of sixteen.
fn drawn_stops(draws: &mut Draws) -> Stops {
    let kinds = drawn_kinds(draws);
    Stops {
        gave: kinds[0],
        sent: kinds[1],
        landed: kinds[2],
        shifted: kinds[3],
        dropped: kinds[4],
        spread: kinds[5],
        executed: kinds[6],
        lifted: kinds[7],
        took: kinds[8],
        discarded: kinds[9],
        through: kinds[10],
        unlocked: kinds[11],
        retired: kinds[12],
        passed: kinds[13],
        idle: draws.below(16) == 0,
    }
}

impl Drawn {
    // The steps of a text.
    fn lay(&mut self, alloc: Global, text: &str) -> Result<Laid, ScheduleFault> {
        let laid = self.session.session().lay(alloc, text);
        if let Err(ScheduleFault::Memory) = laid {
            self.count_memory();
            return self.session.session().lay(alloc, text);
        }
        laid
    }

    // Takes the next laid step, and returns whether its tape was out of memory.
    fn next(&mut self, laid: &mut Laid) -> bool {
        matches!(self.session.next(laid), Err(NotTaped::Memory))
    }

    // Takes at most so many laid steps, and returns whether its tape was out of memory.
    fn run(&mut self, laid: &mut Laid, most: u32, stops: &Stops) -> bool {
        self.session.run(laid, most, stops).is_err()
    }

    // Takes the next laid step.
    fn take_next(&mut self, laid: &mut Laid) {
        if self.next(laid) {
            self.count_memory();
            let _ = self.next(laid);
        }
    }

    // Takes laid steps up to an entry of a drawn kind. Those that were tried before the tape was
    // out of memory count: so the session stops where it would have.
    fn run_drawn(&mut self, laid: &mut Laid) {
        let most = self.draws.below(40).wrapping_add(1);
        let stops = drawn_stops(&mut self.draws);
        let before = laid.len();
        if self.run(laid, most, &stops) {
            self.count_memory();
            let tried = before.saturating_sub(laid.len());
            let _ = self.run(laid, most.saturating_sub(tried), &stops);
        }
    }

    // Takes the next laid step or several, and counts those that weren't taken.
    fn go_on(&mut self, laid: &mut Laid) -> Result<(), Memory> {
        let before = laid.len();
        let taken = self.taken();
        if self.draws.below(3) == 0 {
            self.take_next(laid);
        } else {
            self.run_drawn(laid);
        }
        let tried = before.saturating_sub(laid.len());
        let done = self.taken().saturating_sub(taken);
        let left_out = tried.saturating_sub(done) as u64;
        self.counts.waited = self.counts.waited.saturating_add(left_out);
        self.look()
    }

    // Takes all of the laid steps.
    fn take_all(&mut self, laid: &mut Laid) -> Result<(), Memory> {
        for _ in 0..laid.len() {
            if laid.len() > 0 {
                self.go_on(laid)?;
            }
        }
        Ok(())
    }

    // Takes the steps of a text.
    fn take_text(&mut self, alloc: Global, text: &str) -> Result<(), Memory> {
        match self.lay(alloc, text) {
            Ok(mut laid) => self.take_all(&mut laid),
            Err(_) => {
                self.counts.refused = self.counts.refused.saturating_add(1);
                Ok(())
            }
        }
    }

    /// Takes the steps of a drawn text.
    pub fn take_drawn_text(&mut self, alloc: Global) -> Result<(), Memory> {
        let mut text = String::new(alloc);
        push_drawn_steps(&mut text, &mut self.draws)?;
        self.take_text(alloc, text.as_str())
    }
}
