//! The flits of a packet that is still being gathered.

ghost use Rattle.std.specs.Prelude.{◌≡◌, ◌≤◌, ◌<◌, ◌++◌, [], ◌∷◌, true, Some, None, length};
ghost use Rattle.hmc_through.specs.Pipe.{IsPipe, is_accepted, is_whole, flit_at, whole_fed, last_fed, feed_at};

use arrayvec::ArrayVec;
use hmc_codes::{Flit, Profile, ZERO_FLIT};
use hmc_packet::{Feed, Landed, last_feed_of};
use std::marker::Model;

/// The flits of a packet that is still being gathered. Contracts see how many it has, the profile
/// of its link, those that came, and, once the gathering has ended, whether the packet was
/// accepted.
#[derive(Drop)]
pub struct Pipe {
    flits: u8,
    profile: Profile,
    came: ArrayVec<Flit, 17>,
    good: Option<bool>,
}

impl Model for Pipe {
    ghost use Rattle.hmc_through.specs.Pipe.{PipeFields, IsPipe};

    ghost Value = { PipeFields };

    ghost view = { λ p. record {
      flits = p.flits;
      profile = p.profile;
      came = p.came.items;
      good = p.good;
    } };

    ghost invariant = { λ p. IsPipe (view p) };
}

// Whether the packet was accepted.
fn is_accepted(outcome: &Landed) -> bool
    ensures { result ≡ is_accepted outcome.now }
{
    match outcome {
        Landed::Accepted(_) => true,
        _ => false,
    }
}

impl Pipe {
    /// A pipe of a packet of so many flits, 2 to 17, of which the first has come; the profile is
    /// that of its link.
    pub fn new(head: Flit, flits: u8, profile: Profile) -> Self
        requires some { 2 ≤ flits }
        requires few { flits ≤ 17 }
        ensures { result
            ≡ record { flits = flits; profile = profile; came = head ∷ []; good = None } }
    {
        let mut came = ArrayVec::new();
        came.push(head);
        Pipe {
            flits,
            profile,
            came,
            good: None,
        }
    }

    /// Does nothing. Its contract is what every pipe keeps.
    pub fn invariant(&self)
        ensures { IsPipe self.now }
    {
        let _ = &self.flits;
    }

    /// Another flit came; the gathering hasn't ended.
    pub fn more(&mut self, flit: Flit)
        requires open { self.old.good ≡ None }
        requires room { length self.old.came < self.old.flits }
        ensures { self.new ≡ record self.old { came = self.old.came ++ flit ∷ [] } }
    {
        self.came.push(flit);
    }

    /// The gathering has ended. Where the packet is whole, all of its flits came.
    pub fn end(&mut self, outcome: &Landed)
        requires open { self.old.good ≡ None }
        requires whole { is_whole outcome.now ≡ true → length self.old.came ≡ self.old.flits }
        ensures { self.new ≡ record self.old { good = Some (is_accepted outcome.now) } }
    {
        self.good = Some(is_accepted(outcome));
    }

    // The flit at a place: a zero one where none came.
    #[tactic(auto, unfolding(hmc_codes::specs::Flit::zero_flit))]
    fn flit_at(&self, at: u8) -> Flit
        ensures { result ≡ flit_at self.now at }
    {
        self.came.get(usize::from(at)).copied().unwrap_or(ZERO_FLIT)
    }

    // A flit before the last.
    fn whole_fed(&self, at: u8) -> Feed
        ensures { result ≡ whole_fed self.now at self.now.good }
    {
        if self.good.is_none() && usize::from(at) >= self.came.len() {
            return Feed::Waiting;
        }
        Feed::Whole(self.flit_at(at))
    }

    // The last flit.
    fn last_fed(&self, at: u8) -> Feed
        ensures { result ≡ last_fed self.now at self.now.good }
    {
        match self.good {
            None => Feed::Waiting,
            Some(good) => { last_feed_of(self.profile, &self.flit_at(0), &self.flit_at(at), good) }
        }
    }

    /// What the flit of the copy at a place, from 0, is made of.
    pub fn feed(&self, at: u8) -> Feed
        requires { at < self.now.flits }
        ensures { result ≡ feed_at self.now at }
    {
        self.invariant();
        if at + 1 == self.flits {
            self.last_fed(at)
        } else {
            self.whole_fed(at)
        }
    }
}
