//! The answers to the requests of host 0, by a journal: one pass over its entries finds the
//! answers, and one the requests.

ghost use Rattle.std.specs.Prelude.{ℕ, ◌≡◌, IfOk};
ghost use Rattle.std.specs.List.{filter_map};
ghost use Rattle.hmc_accesses.specs.InOrder.{gave_tag, tagged_answer, took_answer, answer_in_order, known_answer};
ghost use Rattle.hmc_trace.specs.Queues.{queue_of, first_under, IsMatched};

use crate::append::append;
use crate::queues::Queues;
use hmc_codes::{Answer, Memory};
use hmc_entries::Entry;
use std::alloc::Global;

// The tag of a request that host 0 gave.
fn gave_tag(entry: &Entry) -> Option<Option<u16>>
    ensures { result ≡ gave_tag entry.now }
{
    match entry {
        Entry::Gave { host, tag, .. } => {
            if *host == 0 {
                return Some(*tag);
            }
            None
        }
        _ => None,
    }
}

// An answer that host 0 took, and its tag.
fn tagged_answer(entry: &Entry) -> Option<(u16, Answer)>
    ensures { result ≡ tagged_answer entry.now }
{
    match entry {
        Entry::Took { host, tag, answer } => {
            if *host == 0 {
                return Some((*tag, *answer));
            }
            None
        }
        _ => None,
    }
}

// The answers that host 0 took, by their tags.
fn queues_of(alloc: Global, journal: &[Entry]) -> Result<Queues, Memory>
    ensures { IfOk result (λ queues. (t : ℕ) →
        queue_of queues t ≡ filter_map (took_answer t) journal.now) }
{
    let mut queues = Queues::new(alloc);
    'entries: for entry in journal {
        let Some((tag, answer)) = tagged_answer(entry) else {
            continue;
        };
        if let Err(memory) = queues.add(alloc, tag, answer) {
            return Err(memory);
        }
    }
    Ok(queues)
}

// The answer to the next request with this tag.
fn next_answer(queues: &mut Queues, tag: Option<u16>) -> Option<Answer>
    ensures value { result ≡ first_under queues.old tag }
    ensures rest { IsMatched queues.old queues.new tag }
{
    queues.take_out(tag?)
}

/// The answers to the requests that host 0 gave, in order, where the journal has them.
pub fn answers_in(alloc: Global, journal: &[Entry]) -> Result<Vec<Option<Answer>>, Memory>
    ensures { IfOk result (λ answers. (n : ℕ) →
        known_answer answers.items n ≡ answer_in_order journal.now n) }
{
    let mut queues = queues_of(alloc, journal)?;
    let mut answers = Vec::new(alloc);
    'entries: for entry in journal {
        let Some(tag) = gave_tag(entry) else {
            continue;
        };
        let answer = next_answer(&mut queues, tag);
        if let Err(memory) = append(&mut answers, answer) {
            return Err(memory);
        }
    }
    Ok(answers)
}
