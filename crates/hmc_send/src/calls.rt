//! The calls of a sender other than a send.

ghost use Rattle.std.specs.Prelude.{◌≡◌, ◌≤◌, ◌<◌, ◌-◌, true, is_none, is_some, List, [], ◌∷◌};
ghost use Rattle.hmc_codes.specs.Profile.{modulus_of};
ghost use Rattle.hmc_irtry.specs.Burst.{next_of};
ghost use Rattle.hmc_retry.specs.RetryBuffer.{acknowledged_by, acknowledgement, opening_buffer};
ghost use Rattle.hmc_send.specs.Acknowledged.{acknowledged_after, base_after, entries_acknowledged};
ghost use Rattle.hmc_send.specs.Choice.{irtry_due, is_free};
ghost use Rattle.hmc_send.specs.Entries.{SenderEntry, room, enough_others};
ghost use Rattle.hmc_send.specs.Given.{account_through, given_only, good_view};
ghost use Rattle.hmc_send.specs.IsSender.{IsSender};
ghost use Rattle.hmc_send.specs.Kept.{AreNumbers, IsHead};
ghost use Rattle.hmc_send.specs.Places.{numbers_after};
ghost use Rattle.hmc_send.specs.Sender.{opening_sender, open_flits, room_held, view_held, after_acknowledged, after_through};
ghost use Rattle.hmc_send.specs.StandsFor.{StandsFor};
ghost use Rattle.std.specs.Prelude.{nat_le, ◌&&◌};

use crate::state::{ENOUGH, State, is_train};
use crate::unfinished::Unfinished;
use hmc_codes::{Flit, Profile};
use hmc_irtry::Burst;
use hmc_packet::{Mode, View};
use hmc_retry::{RetryBuffer, Stray};
use hmc_tokens::Account;

/// What a new sender holds, which is as if enough other flits had been sent.
pub fn opening(retry: RetryBuffer, profile: Profile) -> State
    requires new { retry ≡ opening_buffer retry.flits profile }
    ensures held { result ≡ opening_sender retry.flits profile }
    ensures sender { IsSender result }
    ensures stands { StandsFor result [] }
{
    retry.invariant();
    State {
        retry,
        profile,
        pointer: 0,
        number: 0,
        under_way: Unfinished::none(),
        burst: Burst::empty(),
        go_back: false,
        is_open: false,
        others: ENOUGH,
        shown: 0,
    }
}

impl State {
    /// A return pointer came.
    pub fn acknowledge(&mut self, rrp: u16) -> Result<usize, Stray>
        requires sender { IsSender self.old }
        ensures keeps { IsSender self.new }
        ensures answer { (past : List SenderEntry) → StandsFor self.old past → result
            ≡ acknowledgement rrp (base_after self.old.retry.profile past)
            (acknowledged_after self.old.retry.profile rrp past) }
        ensures stands { (past : List SenderEntry) → StandsFor self.old past →
            StandsFor self.new (entries_acknowledged
            (acknowledged_after self.old.retry.profile rrp past) past) }
        ensures left { self.new
            ≡ after_acknowledged rrp (acknowledged_by rrp self.old.retry) self.old }
    {
        self.retry.acknowledge(rrp)
    }

    // Whether no IRTRY is due.
    fn is_calm(&self, mode: Mode) -> bool
        ensures { result ≡ is_none (irtry_due
            (next_of self.now.burst.kind self.now.burst.left) mode self.now.go_back
            (nat_le enough_others self.now.others)) }
    {
        self.burst.is_empty() && self.burst_due(mode).is_none()
    }

    /// Whether a packet may be begun for the first time.
    pub fn is_free(&self, own: View) -> bool
        requires sender { IsSender self.now }
        ensures { result ≡ is_free (view_held self.now (given_only own)) }
    {
        let trained = !is_train(own.mode);
        let nothing = !self.has_part();
        let calm = self.is_calm(own.mode);
        let all_sent = self.retry.is_at_end();
        self.is_open && trained && nothing && calm && all_sent
    }

    // The flits of a place whose packet isn't kept yet.
    fn open_flits(&self) -> u8
        ensures { result ≡ open_flits self.now.under_way }
    {
        match self.under_way.get() {
            Some(begun) => begun.open_flits(),
            None => 0,
        }
    }

    /// The flits of packets that may still be begun.
    pub fn room(&self) -> u16
        requires sender { IsSender self.now }
        ensures value { result ≡ room_held self.now }
        ensures by_list { (past : List SenderEntry) → StandsFor self.now past →
            result ≡ room self.now.retry.profile self.now.retry.flits past }
    {
        self.retry.room() - u16::from(self.open_flits())
    }

    /// Begins a cut-through of so many flits, with this head.
    pub fn begin_through(&mut self, head: Flit, flits: u8, account: &mut Account)
        requires sender { IsSender self.old }
        requires free { is_free (view_held self.old (given_only good_view)) ≡ true }
        requires held { flits ≤ account.old.held }
        requires room { flits ≤ room_held self.old }
        requires some { 2 ≤ flits }
        requires head { IsHead head flits }
        ensures keeps { IsSender self.new }
        ensures stands { (past : List SenderEntry) → StandsFor self.old past →
            StandsFor self.new (SenderEntry.through head flits account.old.due ∷ past) }
        ensures left { self.new ≡ after_through head flits account.old.due self.old }
        ensures account { account.new ≡ account_through flits account.old }
    {
        account.spend(flits);
        let rtc = account.pay();
        let numbers = self.next_numbers(flits, rtc);
        self.pointer = numbers.frp;
        self.number = numbers.seq;
        self.under_way.begin_through(head, flits, numbers);
    }
}
