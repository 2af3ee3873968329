//! What a sender holds: its bursts, and the packets that it begins and goes on with.

ghost use Rattle.std.specs.Prelude.{◌≡◌, ◌<◌, ◌≤◌, suc, min, nat_le, if◌then◌else◌, is_none, ◌∷◌, None, slice_get};
ghost use Rattle.hmc_codes.specs.Profile.{modulus_of};
ghost use Rattle.hmc_packet.specs.Draft.{draft_of};
ghost use Rattle.hmc_packet.specs.Packet.{flits_of};
ghost use Rattle.hmc_packet.specs.Parts.{lng_of};
ghost use Rattle.hmc_irtry.specs.Burst.{next_of};
ghost use Rattle.hmc_send.specs.Choice.{irtry_due, irtry_sent, what_of, is_train};
ghost use Rattle.hmc_send.specs.Entries.{enough_others, part_after, with_place};
ghost use Rattle.hmc_send.specs.Kept.{AreNumbers};
ghost use Rattle.hmc_send.specs.Places.{Place, flit_of, numbers_after};
ghost use Rattle.hmc_send.specs.Sender.{with_irtry, others_after};

use crate::under_way::first_flit;
use crate::unfinished::Unfinished;
use crate::{Numbers, Sent};
use hmc_codes::{Flit, Profile};
use hmc_irtry::{Burst, irtry};
use hmc_packet::{Draft, Feed, Kind, Mode, Packet, What};
use hmc_retry::RetryBuffer;

mod sending;

/// The other flits that a burst of Starts waits for.
pub const ENOUGH: u8 = 64;

/// What a sender holds.
#[derive(Drop)]
pub struct State {
    /// The packets that are kept, and where sending them again has come to.
    pub retry: RetryBuffer,
    /// The profile of the link, which is that of the retry buffer.
    pub profile: Profile,
    /// FRP of the packet that was begun last, 0 where none was.
    pub pointer: u16,
    /// SEQ of that packet.
    pub number: u8,
    /// The packet that is begun and has flits left.
    pub under_way: Unfinished,
    /// The IRTRYs that a burst lacks.
    pub burst: Burst,
    /// Whether a go-back is due.
    pub go_back: bool,
    /// Whether new packets may be sent.
    pub is_open: bool,
    /// How many other flits were sent after the last Start, up to 64.
    pub others: u8,
    /// The return pointer that was shown last, 0 where none was.
    pub shown: u16,
}

impl State {
    ghost use Rattle.std.specs.Prelude.{IfSome, IsSome, is_some, List};
    ghost use Rattle.hmc_codes.specs.declared.profile.Profile.{Profile};
    ghost use Rattle.hmc_send.specs.Entries.{SenderEntry, through_place, through_at};
    ghost use Rattle.hmc_send.specs.Sender.{after_ran, FitsPlace, after_part, retry_with, irtry_begun, again_sent, again_begun, with_begun, with_new};
    ghost use Rattle.hmc_send.specs.StandsFor.{StandsFor};
    ghost use Rattle.hmc_retry.specs.RetryBuffer.{room_of};
    ghost use Rattle.hmc_send.specs.Choice.{next_flit, part_what, unless_starved};
    ghost use Rattle.hmc_send.specs.IsSender.{IsFed, IsSender, IsSequenced};
    ghost use Rattle.hmc_send.specs.Kept.{IsPartFit};
    ghost use Rattle.hmc_packet.specs.Tail.{FitsField, tail_layout};
    ghost use Rattle.hmc_send.specs.Places.{next_packet};

    /// A flit other than a Start was sent.
    pub fn count_other(&mut self)
        requires { self.old.others ≤ enough_others }
        ensures { self.new ≡ record self.old { others = min (suc self.old.others) enough_others } }
    {
        self.others = (self.others + 1).min(ENOUGH);
    }

    /// The kind of a burst that begins.
    pub fn burst_due(&self, mode: Mode) -> Option<Kind>
        ensures { result ≡ irtry_due None mode self.now.go_back
            (nat_le enough_others self.now.others) }
    {
        if self.go_back {
            Some(Kind::Clear)
        } else if mode == Mode::Abort && self.others >= ENOUGH {
            Some(Kind::Start)
        } else {
            None
        }
    }

    // Begins a burst, of which the first IRTRY counts as sent.
    fn begin_burst(&mut self, kind: Kind)
        requires { self.old.burst.left ≡ 0 }
        ensures { self.new ≡ with_irtry kind self.old }
    {
        if kind == Kind::Clear {
            self.go_back = false;
            self.retry.go_back();
        }
        self.burst = Burst::new(kind);
        let _ = self.burst.next();
    }

    /// The next IRTRY, which then counts as sent: of a burst that isn't whole, or of one that
    /// begins.
    #[inline(always)]
    pub fn next_irtry(&mut self, mode: Mode) -> Option<Kind>
        ensures kind { result
            ≡ irtry_due (next_of self.old.burst.kind self.old.burst.left) mode self.old.go_back
            (nat_le enough_others self.old.others) }
        ensures left { self.new ≡ irtry_begun result self.old }
    {
        if let Some(kind) = self.burst.next() {
            return Some(kind);
        }
        let kind = self.burst_due(mode)?;
        self.begin_burst(kind);
        Some(kind)
    }

    /// An IRTRY that counts as sent, as a flit.
    #[inline(never)]
    pub fn steer(&mut self, kind: Kind, rrp: u16) -> Sent
        requires rrp { rrp < modulus_of self.old.profile }
        requires others { self.old.others ≤ enough_others }
        ensures flit { result ≡ irtry_sent self.old.profile rrp kind }
        ensures left { self.new ≡ record self.old {
          shown = rrp;
          others = others_after (what_of kind) self.old.others;
        } }
    {
        self.shown = rrp;
        let flit = irtry(kind, rrp, self.profile);
        match kind {
            Kind::Start => {
                self.others = 0;
                Sent::Out {
                    flit,
                    what: What::Start,
                }
            }
            Kind::Clear => {
                self.count_other();
                Sent::Out {
                    flit,
                    what: What::Clear,
                }
            }
        }
    }

    // The first flit of a packet was sent, where nothing was under way.
    fn begin(&mut self, packet: &Packet, draft: Draft, again: bool, flit: Flit, rrp: u16)
        requires nothing { self.old.under_way ≡ None }
        requires draft { draft ≡ draft_of packet.now }
        requires lng { lng_of flit ≡ flits_of packet.now }
        requires others { self.old.others ≤ enough_others }
        ensures { self.new ≡ with_begun packet.now again rrp flit self.old }
    {
        self.count_other();
        begin_part(
            &mut self.under_way,
            &mut self.shown,
            packet,
            draft,
            again,
            flit,
            rrp,
        );
    }

    /// Begins the packet at the position again; `None` where all were sent.
    #[inline(always)]
    pub fn begin_again(&mut self, rrp: u16) -> Option<Sent>
        requires sender { IsSender self.old }
        requires nothing { self.old.under_way ≡ None }
        requires rrp { rrp < modulus_of self.old.profile }
        ensures flit { result ≡ again_sent self.old.profile rrp
            (slice_get self.old.retry.kept self.old.retry.position) }
        ensures left { self.new ≡ again_begun self.old.profile rrp
            (slice_get self.old.retry.kept self.old.retry.position) self.old }
    {
        if self.retry.is_at_end() {
            return None;
        }
        self.begin_kept(rrp)
    }

    // The same. It stands apart since most sends have no packet to move.
    #[inline(never)]
    fn begin_kept(&mut self, rrp: u16) -> Option<Sent>
        requires sender { IsSender self.old }
        requires nothing { self.old.under_way ≡ None }
        requires rrp { rrp < modulus_of self.old.profile }
        ensures flit { result ≡ again_sent self.old.profile rrp
            (slice_get self.old.retry.kept self.old.retry.position) }
        ensures left { self.new ≡ again_begun self.old.profile rrp
            (slice_get self.old.retry.kept self.old.retry.position) self.old }
    {
        let packet = self.retry.next()?;
        let draft = Draft::of(&packet);
        let flit = first_flit(self.profile, &packet, &draft, rrp);
        self.begin(&packet, draft, true, flit, rrp);
        Some(Sent::Out {
            flit,
            what: What::Again,
        })
    }

    /// The numbers of the next packet, of so many flits, which returns tokens by this code.
    pub fn next_numbers(&self, flits: u8, rtc: u8) -> Numbers
        requires number { self.now.number < 8 }
        requires pointer { self.now.pointer < modulus_of self.now.profile }
        requires rtc { rtc < 8 }
        ensures value { result ≡ numbers_after self.now.profile self.now.pointer self.now.number
            flits rtc }
        ensures are { AreNumbers result }
    {
        Numbers {
            frp: (self.pointer + u16::from(flits)) % self.profile.modulus(),
            seq: (self.number + 1) % 8,
            rtc,
        }
    }

    // Begins a packet for the first time. It is kept with its numbers, and its first flit is sent.
    #[inline(never)]
    fn begin_new(&mut self, packet: &Packet, rtc: u8, rrp: u16) -> Flit
        requires sender { IsSender self.old }
        requires nothing { self.old.under_way ≡ None }
        requires rrp { rrp < modulus_of self.old.profile }
        requires rtc { rtc < 8 }
        requires sequenced { IsSequenced packet.now }
        requires errstat { FitsField (tail_layout self.old.profile).errstat packet.now.errstat }
        requires room { flits_of packet.now ≤ room_of self.old.retry }
        ensures flit { result ≡ flit_of self.old.profile
            (next_packet self.old.profile self.old.pointer self.old.number rtc packet.now) rrp 0 }
        ensures lng { lng_of result ≡ flits_of packet.now }
        ensures left { self.new ≡ with_new
            (next_packet self.old.profile self.old.pointer self.old.number rtc packet.now) rrp
            result self.old }
    {
        packet.invariant();
        let next = self.next_numbers(packet.flits(), rtc);
        self.pointer = next.frp;
        self.number = next.seq;
        self.retry.keep_with(packet, next.rtc, next.seq, next.frp);
        let Some(kept) = self.retry.latest() else {
            unreachable!()
        };
        let draft = Draft::of(kept);
        let flit = first_flit(self.profile, kept, &draft, rrp);
        begin_part(
            &mut self.under_way,
            &mut self.shown,
            kept,
            draft,
            false,
            flit,
            rrp,
        );
        self.count_other();
        flit
    }

    // The copy that is complete with what is fed is kept. Most packets are not passed on: for these
    // none is made.
    fn keep_copy(&mut self, feed: &Feed)
        requires sender { IsSender self.old }
        requires feed { IsFed self.old.under_way feed.now }
        ensures { self.new ≡ record self.old {
          retry = retry_with self.old.profile self.old.under_way feed.now self.old.retry;
        } }
    {
        let Some(begun) = self.under_way.get() else {
            return;
        };
        begun.invariant();
        if begun.open_flits() == 0 {
            return;
        }
        if let Some(copy) = begun.copy(self.profile, feed) {
            self.retry.keep(&copy);
        }
    }

    // The last flit of the packet under way was sent: a copy is complete, and kept.
    fn end(&mut self, rrp: u16, feed: &Feed)
        requires sender { IsSender self.old }
        requires feed { IsFed self.old.under_way feed.now }
        ensures { self.new ≡ record self.old {
          retry = retry_with self.old.profile self.old.under_way feed.now self.old.retry;
          under_way = None;
          shown = rrp;
        } }
    {
        self.keep_copy(feed);
        self.under_way.end();
        self.shown = rrp;
    }

    /// Sends the next flit of the packet under way, if there is one and its flit is there.
    #[inline(never)]
    pub fn go_on(&mut self, rrp: u16, feed: &Feed) -> Sent
        requires sender { IsSender self.old }
        requires begun { IsSome self.old.under_way }
        requires rrp { rrp < modulus_of self.old.profile }
        requires feed { IsFed self.old.under_way feed.now }
        ensures answer { IfSome self.old.under_way (λ begun. result
            ≡ unless_starved (part_what begun.part)
            (next_flit self.old.profile rrp feed.now begun.place begun.part)) }
        ensures left { IfSome self.old.under_way (λ begun. self.new
            ≡ after_part self.old.profile rrp feed.now result begun self.old) }
    {
        let Some(begun) = self.under_way.get() else {
            unreachable!()
        };
        let Some(flit) = begun.next_flit(self.profile, rrp, feed) else {
            return Sent::Starved;
        };
        let what = begun.what();
        if begun.is_at_last() {
            self.end(rrp, feed);
        } else {
            self.under_way.push(flit);
        }
        self.count_other();
        Sent::Out { flit, what }
    }

    // Does nothing. Its contract is that what is fed fits the packet under way.
    fn fits(&self, feed: &Feed)
        requires feed { IsFed self.now.under_way feed.now }
        ensures fits { IfSome self.now.under_way (λ begun. (profile : Profile) →
            FitsPlace profile begun.part begun.place feed.now) }
        ensures part { IfSome self.now.under_way (λ begun. IsPartFit begun.part begun.place) }
    {
        if let Some(begun) = self.under_way.get() {
            begun.invariant();
            begun.fits(feed);
        }
    }

    /// Whether a packet is under way.
    pub fn has_part(&self) -> bool
        ensures { result ≡ is_some self.now.under_way }
    {
        self.under_way.is_begun()
    }

    /// The other end's run of Starts was counted.
    pub fn ran(&mut self)
        requires sender { IsSender self.old }
        ensures keeps { IsSender self.new }
        ensures stands { (past : List SenderEntry) → StandsFor self.old past →
            StandsFor self.new (SenderEntry.ran ∷ past) }
        ensures left { self.new ≡ after_ran self.old }
    {
        self.go_back = true;
        self.is_open = true;
    }

    /// The place, from 0, of the next flit of a packet that is passed on and unfinished; `None`
    /// exactly where there is none.
    pub fn through_at(&self) -> Option<u8>
        ensures value { result ≡ through_place self.now.under_way }
        ensures by_list { (past : List SenderEntry) → StandsFor self.now past →
            result ≡ through_at self.now.retry.profile past }
    {
        match self.under_way.get() {
            Some(begun) => begun.through_at(),
            None => None,
        }
    }
}

/// Whether a receiver is in training.
pub fn is_train(mode: Mode) -> bool
    ensures { result ≡ is_train mode }
{
    match mode {
        Mode::Train => true,
        _ => false,
    }
}

// A packet is under way, of which the first flit was sent. A packet of one flit has ended with it:
// then nothing is written but the return pointer that it showed.
fn begin_part(
    under_way: &mut Unfinished,
    shown: &mut u16,
    packet: &Packet,
    draft: Draft,
    again: bool,
    flit: Flit,
    rrp: u16,
)
    requires nothing { under_way.old ≡ None }
    requires draft { draft ≡ draft_of packet.now }
    requires lng { lng_of flit ≡ flits_of packet.now }
    ensures begun { under_way.new
        ≡ with_place (Place.known packet.now) (part_after again flit None) }
    ensures shown { shown.new
        ≡ (if is_none (part_after again flit None) then rrp else shown.old) }
{
    if packet.flits() == 1 {
        *shown = rrp;
        return;
    }
    under_way.begin(packet, draft, again, flit);
}
