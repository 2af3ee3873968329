//! The send of a sender: the first of ten cases that applies.

ghost use Rattle.std.specs.Prelude.{◌≡◌, ◌<◌, ◌≤◌, ◌&&◌, suc, min, nat_le, nat_lt, None, drop, slice_get};
ghost use Rattle.hmc_codes.specs.Profile.{modulus_of};
ghost use Rattle.hmc_send.specs.Entries.{enough_others};
ghost use Rattle.hmc_send.specs.Places.{flit_of, tret_packet, pret_packet};

use crate::Sent;
use crate::state::{State, is_train};
use hmc_codes::{Command, Flit, Profile, ZERO_FLIT};
use hmc_packet::{Feed, Packet, TRAINING_FLIT, View, What, constant_flits, pret_flit};
use hmc_tokens::{Account, Intake};

impl State {
    ghost use Rattle.hmc_packet.specs.declared.feed.Feed.TheVariants.{Waiting};
    ghost use Rattle.hmc_send.specs.Choice.{first_time, pointer_sent, choice, view_after};
    ghost use Rattle.std.specs.Prelude.{List};
    ghost use Rattle.hmc_send.specs.Entries.{SenderEntry};
    ghost use Rattle.hmc_send.specs.StandsFor.{StandsFor, entries_after};
    ghost use Rattle.hmc_send.specs.Given.{given_of, begun_fronts, account_first, IsFrontFit, IsBegunFit, IsTakenFit, fronts_taken, account_after, IsOneFlit};
    ghost use Rattle.hmc_send.specs.Sender.{view_held, after_first, after_send, MaySend};
    ghost use Rattle.hmc_retry.specs.RetryBuffer.{room_of};
    ghost use Rattle.hmc_send.specs.IsSender.{IsFed, IsSender};

    // Whether a packet of so many flits has tokens and room.
    fn may_begin(&self, flits: u8, account: &Account) -> bool
        ensures { result ≡ (nat_le flits account.now.held
            && nat_le flits (room_of self.now.retry)) }
    {
        u32::from(flits) <= account.held && u16::from(flits) <= self.retry.room()
    }

    // Whether due tokens may be returned alone.
    fn may_return(&self, account: &Account) -> bool
        ensures { result ≡ (nat_lt 0 account.now.due && nat_le 1 (room_of self.now.retry)) }
    {
        account.due > 0 && self.retry.room() >= 1
    }

    // A return pointer alone, where it isn't the one shown last; else a NULL.
    #[inline(always)]
    fn pointer_or_null(&mut self, rrp: u16) -> Sent
        requires rrp { rrp < modulus_of self.old.profile }
        requires others { self.old.others ≤ enough_others }
        ensures flit { result ≡ pointer_sent self.old.profile rrp self.old.shown }
        ensures left { self.new ≡ record self.old {
          shown = rrp;
          others = min (suc self.old.others) enough_others;
        } }
    {
        self.count_other();
        if rrp == self.shown {
            constant_flits();
            return Sent::Out {
                flit: ZERO_FLIT,
                what: What::Null,
            };
        }
        self.shown = rrp;
        Sent::Out {
            flit: pret(self.profile, rrp),
            what: What::Pret,
        }
    }

    /// Sends a packet for the first time: the front of the queue, or a TRET; else a PRET or a NULL.
    #[inline(always)]
    pub fn first_time<Q: Intake>(&mut self, own: View, queue: &mut Q, account: &mut Account) -> Sent
        requires sender { IsSender self.old }
        requires nothing { self.old.under_way ≡ None }
        requires rrp { own.rrp < modulus_of self.old.profile }
        requires front { IsFrontFit self.old.profile (slice_get (Q.packets queue.old) 0) }
        ensures flit { result ≡ first_time self.old.profile (view_held self.old
            (given_of own (Q.packets queue.old) account.old Waiting)) }
        ensures left { self.new ≡ after_first
            (given_of own (Q.packets queue.old) account.old Waiting) result self.old }
        ensures lng { IsOneFlit result }
        ensures begun { IsBegunFit result (slice_get (Q.packets queue.old) 0) }
        ensures queue { Q.packets queue.new ≡ drop (begun_fronts result) (Q.packets queue.old) }
        ensures size { Q.size queue.new ≡ Q.size queue.old }
        ensures cost { Q.cost queue.new ≡ Q.cost queue.old }
        ensures account { account.new
            ≡ account_first (slice_get (Q.packets queue.old) 0) result account.old }
    {
        if self.is_open {
            if let Some(front) = queue.front_ref() {
                if self.may_begin(front.flits(), account) {
                    front.invariant();
                    account.spend(front.flits());
                    let rtc = account.pay();
                    let flit = self.begin_new(front, rtc, own.rrp);
                    queue.drop_front();
                    return Sent::Out {
                        flit,
                        what: What::New,
                    };
                }
            }
            if self.may_return(account) {
                let rtc = account.pay();
                let flit = self.begin_new(&tret(), rtc, own.rrp);
                return Sent::Out {
                    flit,
                    what: What::Tret,
                };
            }
        }
        self.pointer_or_null(own.rrp)
    }

    // The first of ten cases that applies.
    #[inline(always)]
    fn choose<Q: Intake>(
        &mut self,
        own: View,
        queue: &mut Q,
        account: &mut Account,
        feed: &Feed,
    ) -> Sent
        requires sender { IsSender self.old }
        requires rrp { own.rrp < modulus_of self.old.profile }
        requires front { IsFrontFit self.old.profile (slice_get (Q.packets queue.old) 0) }
        requires feed { IsFed self.old.under_way feed.now }
        ensures answer { result ≡ choice self.old.profile (view_held self.old
            (given_of own (Q.packets queue.old) account.old feed.now)) }
        ensures left { self.new ≡ after_send
            (given_of own (Q.packets queue.old) account.old feed.now) result self.old }
        ensures may { MaySend self.old
            (given_of own (Q.packets queue.old) account.old feed.now) }
        ensures begun { IsTakenFit self.old.under_way result
            (slice_get (Q.packets queue.old) 0) }
        ensures queue { Q.packets queue.new
            ≡ drop (fronts_taken self.old.under_way result) (Q.packets queue.old) }
        ensures size { Q.size queue.new ≡ Q.size queue.old }
        ensures cost { Q.cost queue.new ≡ Q.cost queue.old }
        ensures account { account.new ≡ account_after self.old.under_way
            (slice_get (Q.packets queue.old) 0) result account.old }
    {
        self.fits(feed);
        if is_train(own.mode) {
            constant_flits();
            self.count_other();
            return Sent::Out {
                flit: TRAINING_FLIT,
                what: What::Train,
            };
        }
        if self.has_part() {
            return self.go_on(own.rrp, feed);
        }
        if let Some(kind) = self.next_irtry(own.mode) {
            return self.steer(kind, own.rrp);
        }
        if let Some(sent) = self.begin_again(own.rrp) {
            return sent;
        }
        self.first_time(own, queue, account)
    }

    /// Sends the next flit: the first of ten cases that applies. For each list that the sender
    /// stands for it is the choice, and the sender then stands for the list with its entry.
    #[inline(always)]
    pub fn send<Q: Intake>(
        &mut self,
        own: View,
        queue: &mut Q,
        account: &mut Account,
        feed: &Feed,
    ) -> Sent
        requires sender { IsSender self.old }
        requires rrp { own.rrp < modulus_of self.old.profile }
        requires front { IsFrontFit self.old.profile (slice_get (Q.packets queue.old) 0) }
        requires feed { IsFed self.old.under_way feed.now }
        ensures keeps { IsSender self.new }
        ensures answer { (past : List SenderEntry) → StandsFor self.old past → result
            ≡ choice self.old.retry.profile (view_after self.old.retry.profile
            self.old.retry.flits past
            (given_of own (Q.packets queue.old) account.old feed.now)) }
        ensures stands { (past : List SenderEntry) → StandsFor self.old past →
            StandsFor self.new (entries_after
            (given_of own (Q.packets queue.old) account.old feed.now) result past) }
        ensures left { self.new ≡ after_send
            (given_of own (Q.packets queue.old) account.old feed.now) result self.old }
        ensures queue { Q.packets queue.new
            ≡ drop (fronts_taken self.old.under_way result) (Q.packets queue.old) }
        ensures size { Q.size queue.new ≡ Q.size queue.old }
        ensures cost { Q.cost queue.new ≡ Q.cost queue.old }
        ensures account { account.new ≡ account_after self.old.under_way
            (slice_get (Q.packets queue.old) 0) result account.old }
    {
        self.choose(own, queue, account, feed)
    }
}

// The packet that returns tokens alone.
fn tret() -> Packet
    ensures { result ≡ tret_packet }
{
    Packet::flow(Command::Tret, 0)
}

// A return pointer alone, as a flit.
#[tactic(auto, unfolding(crate::specs::Places::flit_of))]
fn pret(profile: Profile, rrp: u16) -> Flit
    requires { rrp < modulus_of profile }
    ensures { result ≡ flit_of profile pret_packet rrp 0 }
{
    pret_flit(rrp, profile)
}
