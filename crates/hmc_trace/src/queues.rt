//! The answers that wait for their requests, in a queue for each tag.

ghost use Rattle.std.specs.Prelude.{ℕ, ◌≡◌, ◌<◌, [], ◌∷◌, ◌++◌, length, OnOk};
ghost use Rattle.std.specs.List.{slice_get};
ghost use Rattle.hmc_trace.specs.Queues.{queue_of, IsAdded, IsTakenOut};

use crate::append::append;
use hmc_codes::{Answer, Memory};
use std::alloc::Global;
use std::collections::VecDeque;
use std::marker::Model;

/// Queues of answers. The queue of a tag is at the place of its number; contracts see them as
/// lists.
#[derive(Drop)]
pub struct Queues {
    queues: Vec<VecDeque<Answer>>,
}

impl Model for Queues {
    ghost use Rattle.std.specs.Prelude.{List, map};
    ghost use Rattle.hmc_codes.specs.declared.answer.Answer.{Answer};

    ghost Value = { List (List Answer) };

    ghost view = { λ q. map (λ queue. queue.items) q.queues.items };
}

// An answer joins a queue.
fn enqueue<T: Copy>(queue: &mut VecDeque<T>, item: T) -> Result<(), Memory>
    ensures { OnOk result (queue.new.items ≡ queue.old.items ++ item ∷ []) }
{
    match queue.push_back(item) {
        Ok(()) => Ok(()),
        Err(_) => Err(Memory),
    }
}

impl Queues {
    /// No answers.
    pub fn new(alloc: Global) -> Queues
        ensures { result ≡ [] }
    {
        Queues {
            queues: Vec::new(alloc),
        }
    }

    // Sees to it that a tag has a queue.
    fn grow(&mut self, alloc: Global, tag: u16) -> Result<(), Memory>
        ensures there { OnOk result (tag < length self.new) }
        ensures same { OnOk result ((t : ℕ) → queue_of self.new t ≡ queue_of self.old t) }
    {
        'queues: while self.queues.len() <= usize::from(tag) {
            if let Err(memory) = append(&mut self.queues, VecDeque::new(alloc)) {
                return Err(memory);
            }
        }
        Ok(())
    }

    /// Adds an answer to the queue of its tag.
    pub fn add(&mut self, alloc: Global, tag: u16, answer: Answer) -> Result<(), Memory>
        ensures { OnOk result (IsAdded self.old self.new tag answer) }
    {
        self.grow(alloc, tag)?;
        enqueue(&mut self.queues[usize::from(tag)], answer)
    }

    /// Takes the first answer out of the queue of a tag.
    pub fn take_out(&mut self, tag: u16) -> Option<Answer>
        ensures value { result ≡ slice_get (queue_of self.old tag) 0 }
        ensures rest { IsTakenOut self.old self.new tag }
    {
        if usize::from(tag) >= self.queues.len() {
            return None;
        }
        self.queues[usize::from(tag)].pop_front()
    }
}
