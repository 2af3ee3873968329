//! Pipes: the flits of packets that are forwarded while they are gathered.

ghost use Rattle.std.specs.Prelude.{◌≡◌, ◌<◌, ◌≤◌, ◌+◌, ◌*◌, ◌∷◌, List, IfOk, IfSome, Some, None, true, length, option_map, replicate};
ghost use Rattle.hmc_through.specs.Pipe.{is_accepted, is_whole};
ghost use Rattle.hmc_journal.specs.Piped.{PipeFrom, is_accepted_outcome, while_gathered, with_landing, with_unlock, fed};
ghost use Rattle.hmc_kept.specs.Pipes.{PipesHeld, AreCounted, AreUnused, AreGathering, IsLastOf, IsPlace, MayLand, MayLose, is_gathered, is_whole_outcome, forwarded_at, pipe_at, changed_pipe, after_begin, after_flit, after_loss};

use hmc_codes::{Flit, Memory};
use hmc_packet::{Feed, Landed, Outcome, Packet};
use hmc_through::Pipe;
use std::alloc::Global;
use std::marker::Model;

/// A pipe, and the direction at whose end its packet is gathered.
#[derive(Drop)]
pub struct Source {
    from: u8,
    pipe: Pipe,
}

impl Model for Source {
    ghost use Rattle.hmc_journal.specs.Piped.{PipeFrom};

    ghost Value = { PipeFrom };

    ghost view = { λ s. record { from = s.from; pipe = s.pipe } };
}

impl Source {
    // A flit lands that belongs to the packet.
    #[inline(always)]
    fn land(&mut self, flit: &Flit, outcome: Outcome)
        requires open { self.old.pipe.good ≡ None }
        requires more { length self.old.pipe.came < self.old.pipe.flits }
        requires last { is_whole_outcome outcome ≡ true →
            length self.old.pipe.came + 1 ≡ self.old.pipe.flits }
        ensures { self.new ≡ record self.old {
          pipe = with_landing flit.now outcome self.old.pipe;
        } }
    {
        self.pipe.more(*flit);
        if !is_gathered(outcome) {
            self.pipe.end(&as_landed(outcome));
        }
    }

    // The framing is lost before the packet has come whole.
    fn lose(&mut self)
        requires { self.old.pipe.good ≡ None }
        ensures { self.new ≡ record self.old { pipe = with_unlock self.old.pipe } }
    {
        self.pipe.end(&Landed::Quiet);
    }
}

/// By each direction, onto which one the packet is forwarded that is gathered at its end, and the
/// pipe of the latest packet that was forwarded onto it.
#[derive(Drop)]
pub struct Pipes {
    forwarded: Vec<Option<u8>>,
    pipes: Vec<Option<Source>>,
}

impl Model for Pipes {
    ghost use Rattle.hmc_kept.specs.Pipes.{PipesHeld};

    ghost Value = { PipesHeld };

    ghost view = { λ p. record { forwarded = p.forwarded.items; pipes = p.pipes.items } };
}

impl Pipes {
    /// No packet is forwarded, in so many directions. No other call takes memory.
    pub fn build(alloc: Global, directions: usize) -> Result<Self, Memory>
        ensures counted { IfOk result (AreCounted directions) }
        ensures unused { IfOk result AreUnused }
    {
        let forwarded = empty_places(alloc, directions)?;
        let pipes = empty_places(alloc, directions)?;
        Ok(Pipes { forwarded, pipes })
    }

    /// Onto which direction the packet is forwarded that is gathered at the end of one.
    #[inline(always)]
    pub fn onto(&self, direction: u8) -> Option<u8>
        requires { direction < length self.now.forwarded }
        ensures { result ≡ forwarded_at self.now direction }
    {
        self.forwarded[usize::from(direction)]
    }

    /// What a send in a direction is fed, by the place of the next flit of the packet that is
    /// forwarded onto it, if one is.
    #[inline(always)]
    pub fn feed(&self, direction: u8, place: Option<u8>) -> Feed
        requires there { direction < length self.now.pipes }
        requires place { IsPlace (pipe_at self.now direction) place }
        ensures { result ≡ fed place (pipe_at self.now direction) }
    {
        let Some(at) = place else {
            return Feed::Waiting;
        };
        match &self.pipes[usize::from(direction)] {
            Some(source) => source.pipe.feed(at),
            None => Feed::Waiting,
        }
    }

    /// The packet that is gathered at the end of a direction is forwarded onto another one.
    pub fn begin(&mut self, from: u8, onto: u8, pipe: Pipe)
        requires from { from < length self.old.forwarded }
        requires onto { onto < length self.old.pipes }
        ensures { self.new ≡ after_begin onto (record { from = from; pipe = pipe }) self.old }
    {
        self.forwarded[usize::from(from)] = Some(onto);
        self.pipes[usize::from(onto)] = Some(Source { from, pipe });
    }

    /// A flit lands at the end of a direction.
    pub fn land(&mut self, direction: u8, flit: &Flit, outcome: Outcome)
        requires there { direction < length self.old.forwarded }
        requires gathering { AreGathering self.old direction }
        requires last { IsLastOf self.old direction outcome }
        ensures { self.new ≡ after_flit direction flit.now outcome self.old }
    {
        let Some(onto) = self.forwarded[usize::from(direction)] else {
            return;
        };
        land_in(&mut self.pipes[usize::from(onto)], flit, outcome);
        self.forwarded[usize::from(direction)] = onto_after(outcome, onto);
    }

    /// The framing of a direction is lost.
    pub fn lose(&mut self, direction: u8)
        requires there { direction < length self.old.forwarded }
        requires gathering { AreGathering self.old direction }
        ensures { self.new ≡ after_loss direction self.old }
    {
        let Some(onto) = self.forwarded[usize::from(direction)] else {
            return;
        };
        lose_in(&mut self.pipes[usize::from(onto)]);
        self.forwarded[usize::from(direction)] = None;
    }
}

// So many places, with nothing in them.
fn empty_places<T: Drop>(alloc: Global, count: usize) -> Result<Vec<Option<T>>, Memory>
    ensures { IfOk result (λ places. places.items ≡ replicate count None) }
{
    let mut places = Vec::with_capacity(alloc, count)?;
    'each: for _ in 0..count {
        places.push(None)?;
    }
    Ok(places)
}

// A flit lands that belongs to the packet of a pipe, if there is one.
fn land_in(pipe: &mut Option<Source>, flit: &Flit, outcome: Outcome)
    requires { MayLand pipe.old outcome }
    ensures { pipe.new ≡ option_map
        (changed_pipe (with_landing flit.now outcome)) pipe.old }
{
    if let Some(source) = pipe {
        source.land(flit, outcome);
    }
}

// The framing is lost before the packet of a pipe, if there is one, has come whole.
fn lose_in(pipe: &mut Option<Source>)
    requires { MayLose pipe.old }
    ensures { pipe.new ≡ option_map (changed_pipe with_unlock) pipe.old }
{
    if let Some(source) = pipe {
        source.lose();
    }
}

// Onto which direction a packet is forwarded after a landing.
fn onto_after(outcome: Outcome, onto: u8) -> Option<u8>
    ensures { result ≡ while_gathered outcome (Some onto) }
{
    match outcome {
        Outcome::Gathered => Some(onto),
        _ => None,
    }
}

// Whether flits of a packet are still to come.
fn is_gathered(outcome: Outcome) -> bool
    ensures { result ≡ is_gathered outcome }
{
    matches!(outcome, Outcome::Gathered)
}

// What a pipe is told of an outcome: it doesn't look at the packet.
fn as_landed(outcome: Outcome) -> Landed
    ensures accepted { is_accepted result ≡ is_accepted_outcome outcome }
    ensures whole { is_whole result ≡ is_whole_outcome outcome }
{
    match outcome {
        Outcome::Accepted => Landed::Accepted(Packet::null()),
        Outcome::Poisoned | Outcome::Repeat => Landed::Repeat,
        Outcome::Quiet
        | Outcome::Trained
        | Outcome::Gathered
        | Outcome::AbortedBad(_)
        | Outcome::AbortedOrder
        | Outcome::Ran(_) => Landed::Quiet,
    }
}
