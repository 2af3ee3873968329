//! The sender of a direction of a link.

ghost use Rattle.std.specs.Prelude.{◌≡◌, ◌≤◌, ◌<◌, true, [], ◌∷◌, List, IfOk, drop, slice_get};
ghost use Rattle.hmc_codes.specs.Limits.{least_flits};
ghost use Rattle.hmc_codes.specs.Profile.{modulus_of, most_retry};
ghost use Rattle.hmc_retry.specs.RetryBuffer.{acknowledged_by, acknowledgement};
ghost use Rattle.hmc_send.specs.Acknowledged.{acknowledged_after, base_after, entries_acknowledged};
ghost use Rattle.hmc_send.specs.Choice.{choice, is_free, view_after};
ghost use Rattle.hmc_send.specs.Entries.{SenderEntry, room, through_at, through_place};
ghost use Rattle.hmc_send.specs.Given.{given_of, given_only, good_view, IsFrontFit, fronts_taken, account_after, account_through};
ghost use Rattle.hmc_send.specs.IsSender.{IsFed};
ghost use Rattle.hmc_send.specs.Kept.{IsHead};
ghost use Rattle.hmc_send.specs.Sender.{opening_sender, room_held, view_held, after_acknowledged, after_ran, after_send, after_through};
ghost use Rattle.hmc_send.specs.StandsFor.{StandsFor, entries_after};

use crate::Sent;
use crate::calls::opening;
use crate::state::State;
use hmc_codes::{Flit, Memory, Profile};
use hmc_packet::{Feed, View};
use hmc_retry::{RetryBuffer, Stray};
use hmc_tokens::{Account, Intake};
use std::alloc::Global;
use std::marker::Model;

/// The sender of a direction of a link.
///
/// Contracts see what it holds, and by `StandsFor` which lists of entries that stands for.
#[derive(Drop)]
pub struct Sender {
    state: State,
}

impl Model for Sender {
    ghost use Rattle.hmc_send.specs.declared.state.State.{State as Held};
    ghost use Rattle.hmc_send.specs.IsSender.{IsSender};

    ghost Value = { Held };

    ghost view = { λ s. s.state };

    ghost invariant = { λ s. IsSender s.state };
}

impl Sender {
    /// A sender that did nothing, with room for so many flits, 17 to half of the profile's modulus.
    /// All that it will hold is reserved: no other call takes memory.
    pub fn new(alloc: Global, retry: u16, profile: Profile) -> Result<Self, Memory>
        requires least { least_flits ≤ retry }
        requires most { retry ≤ most_retry profile }
        ensures held { IfOk result (λ sender. sender ≡ opening_sender retry profile) }
        ensures stands { IfOk result (λ sender. StandsFor sender []) }
    {
        let buffer = RetryBuffer::new(alloc, retry, profile)?;
        Ok(Sender {
            state: opening(buffer, profile),
        })
    }

    /// Sends the next flit, by the first of ten cases that applies.
    ///
    /// `Starved` exactly where the own receiver isn't in training, a packet that is passed on is
    /// under way, and its next flit isn't there. The return pointer is below the modulus. The front
    /// of the queue is a request or a response, and in profile Two its error number is below 8.
    /// Where `through_at` is `Some`, the feed is that of this packet at this place; elsewhere it is
    /// passed over.
    #[inline(always)]
    pub fn send<Q: Intake>(
        &mut self,
        own: View,
        queue: &mut Q,
        account: &mut Account,
        feed: Feed,
    ) -> Sent
        requires rrp { own.rrp < modulus_of self.old.profile }
        requires front { IsFrontFit self.old.profile (slice_get (Q.packets queue.old) 0) }
        requires feed { IsFed self.old.under_way feed }
        ensures answer { (past : List SenderEntry) → StandsFor self.old past → result
            ≡ choice self.old.retry.profile (view_after self.old.retry.profile
            self.old.retry.flits past
            (given_of own (Q.packets queue.old) account.old feed)) }
        ensures stands { (past : List SenderEntry) → StandsFor self.old past →
            StandsFor self.new (entries_after
            (given_of own (Q.packets queue.old) account.old feed) result past) }
        ensures left { self.new ≡ after_send
            (given_of own (Q.packets queue.old) account.old feed) result self.old }
        ensures queue { Q.packets queue.new
            ≡ drop (fronts_taken self.old.under_way result) (Q.packets queue.old) }
        ensures size { Q.size queue.new ≡ Q.size queue.old }
        ensures cost { Q.cost queue.new ≡ Q.cost queue.old }
        ensures account { account.new ≡ account_after self.old.under_way
            (slice_get (Q.packets queue.old) 0) result account.old }
    {
        self.state.send(own, queue, account, &feed)
    }

    /// The other end's run of Starts was counted: a go-back is due, and the sender is open.
    pub fn ran(&mut self)
        ensures stands { (past : List SenderEntry) → StandsFor self.old past →
            StandsFor self.new (SenderEntry.ran ∷ past) }
        ensures left { self.new ≡ after_ran self.old }
    {
        self.state.ran();
    }

    /// A return pointer came. The packets up to the one that ends at it are acknowledged, and their
    /// number is given: none where all up to it were acknowledged before.
    ///
    /// A pointer at which no begun packet ends is `Stray`, and nothing changes. That of a packet
    /// that is passed on is stray until its last flit was sent.
    pub fn acknowledge(&mut self, rrp: u16) -> Result<usize, Stray>
        ensures answer { (past : List SenderEntry) → StandsFor self.old past → result
            ≡ acknowledgement rrp (base_after self.old.retry.profile past)
            (acknowledged_after self.old.retry.profile rrp past) }
        ensures stands { (past : List SenderEntry) → StandsFor self.old past →
            StandsFor self.new (entries_acknowledged
            (acknowledged_after self.old.retry.profile rrp past) past) }
        ensures left { self.new
            ≡ after_acknowledged rrp (acknowledged_by rrp self.old.retry) self.old }
    {
        self.state.acknowledge(rrp)
    }

    /// Whether a packet may be begun for the first time: the sender is open, and none of a send's
    /// cases before new packets applies where its own receiver is in this state.
    pub fn free(&self, own: View) -> bool
        ensures value { result ≡ is_free (view_held self.now (given_only own)) }
        ensures by_list { (past : List SenderEntry) → StandsFor self.now past → result
            ≡ is_free (view_after self.now.retry.profile self.now.retry.flits past
            (given_only own)) }
    {
        self.state.is_free(own)
    }

    /// The flits of packets that may still be begun: those of a packet that is passed on are taken
    /// from it when it is begun.
    pub fn room(&self) -> u16
        ensures value { result ≡ room_held self.now }
        ensures by_list { (past : List SenderEntry) → StandsFor self.now past →
            result ≡ room self.now.retry.profile self.now.retry.flits past }
    {
        self.state.room()
    }

    /// Begins a packet of so many flits, at least 2, that is passed on before it has come whole.
    ///
    /// Its head names that length. The sender is `free` for a receiver that is Good, and the tokens
    /// held and the room are at least that many.
    pub fn begin_through(&mut self, head: Flit, flits: u8, account: &mut Account)
        requires free { is_free (view_held self.old (given_only good_view)) ≡ true }
        requires held { flits ≤ account.old.held }
        requires room { flits ≤ room_held self.old }
        requires some { 2 ≤ flits }
        requires head { IsHead head flits }
        ensures stands { (past : List SenderEntry) → StandsFor self.old past →
            StandsFor self.new (SenderEntry.through head flits account.old.due ∷ past) }
        ensures left { self.new ≡ after_through head flits account.old.due self.old }
        ensures account { account.new ≡ account_through flits account.old }
    {
        self.state.begin_through(head, flits, account);
    }

    /// The place, from 0, of the next flit of a packet that is passed on and unfinished; `None`
    /// exactly where there is none.
    pub fn through_at(&self) -> Option<u8>
        ensures value { result ≡ through_place self.now.under_way }
        ensures by_list { (past : List SenderEntry) → StandsFor self.now past →
            result ≡ through_at self.now.retry.profile past }
    {
        self.state.through_at()
    }
}
