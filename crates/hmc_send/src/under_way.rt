//! The packet that is begun and has flits left.

ghost use Rattle.std.specs.Prelude.{◌≡◌, ◌≢◌, ◌<◌, ◌≤◌, ◌+◌, suc, true, false, [], ◌∷◌, ◌++◌, Some, None, length};
ghost use Rattle.hmc_codes.specs.Profile.{modulus_of};
ghost use Rattle.hmc_packet.specs.Draft.{draft_of};
ghost use Rattle.hmc_packet.specs.Packet.{flits_of, null_packet};
ghost use Rattle.hmc_packet.specs.Parts.{lng_of};
ghost use Rattle.hmc_send.specs.Choice.{next_flit, part_what};
ghost use Rattle.hmc_send.specs.Entries.{part_after, part_with, with_place, through_place};
ghost use Rattle.hmc_send.specs.Kept.{CanBeSent, IsPlaceFit, IsAwaitedPlace};
ghost use Rattle.hmc_send.specs.Places.{flit_of, Place};

use crate::Numbers;
use crate::copy::{copies_fit, copy_of};
use arrayvec::ArrayVec;
use hmc_codes::{Flit, Profile, ZERO_FLIT};
use hmc_packet::{
    Draft, Feed, Packet, What, first_flit_names_length_and_command,
    spelling_is_as_long_as_its_packet,
};
use std::marker::Model;

/// A packet that is begun and has flits left, with its place.
///
/// The packet and its draft have places of their own, into which one after another is written.
/// While a packet is passed on, of which the head and the numbers are known, they are old content,
/// which no contract sees.
#[derive(Drop)]
pub struct UnderWay {
    again: bool,
    flits: u8,
    sent: ArrayVec<Flit, 17>,
    // Whether the packet is known; else it is passed on before it has come whole.
    is_known: bool,
    // The packet, with its numbers, and what is spelled of it once.
    packet: Packet,
    draft: Draft,
    // The first flit of a packet that is passed on, and its numbers in this direction.
    head: Flit,
    numbers: Numbers,
}

impl Model for UnderWay {
    ghost use Rattle.hmc_send.specs.Entries.{UnderWay as Begun};
    ghost use Rattle.hmc_send.specs.Content.{place_of, IsUnderWay};

    ghost Value = { Begun };

    ghost view = { λ u. record {
      part = record { again = u.again; flits = u.flits; sent = u.sent.items };
      place = place_of u.is_known u.flits u.packet u.head u.numbers;
    } };

    ghost invariant = { λ u. IsUnderWay
        (record { again = u.again; flits = u.flits; sent = u.sent.items })
        (place_of u.is_known u.flits u.packet u.head u.numbers)
        u.packet u.draft };
}

// A flit of a packet, from 0, by its draft.
#[tactic(auto, unfolding(crate::specs::Places::flit_of))]
fn drafted_flit(profile: Profile, packet: &Packet, draft: &Draft, rrp: u16, at: u8) -> Flit
    requires draft { draft.now ≡ draft_of packet.now }
    requires fits { CanBeSent profile packet.now }
    requires rrp { rrp < modulus_of profile }
    requires within { at < flits_of packet.now }
    ensures { result ≡ flit_of profile packet.now rrp at }
{
    draft.flit(packet, at, rrp, profile)
}

/// A flit of a packet, from 0, that is sent with a return pointer.
pub fn flit_of(profile: Profile, packet: &Packet, rrp: u16, at: u8) -> Flit
    requires fits { CanBeSent profile packet.now }
    requires rrp { rrp < modulus_of profile }
    requires within { at < flits_of packet.now }
    ensures { result ≡ flit_of profile packet.now rrp at }
{
    drafted_flit(profile, packet, &Draft::of(packet), rrp, at)
}

impl UnderWay {
    ghost use Rattle.std.specs.Prelude.{◌==◌, not};
    ghost use Rattle.hmc_send.specs.Entries.{flits_through};
    ghost use Rattle.hmc_send.specs.Kept.{IsPartFit, IsHead, AreNumbers, IsFedFor, IsHeadFirst};
    ghost use Rattle.std.specs.Prelude.{IfSome};
    ghost use Rattle.hmc_codes.specs.declared.profile.Profile.{Profile};
    ghost use Rattle.hmc_send.specs.Sender.{FitsPlace, open_flits_at};
    ghost use Rattle.hmc_send.specs.Copies.{fed_flit, copy_of};
    ghost use Rattle.hmc_send.specs.Kept.{copy_fed};

    /// A packet that has ended.
    pub fn ended() -> Self
        ensures { result ≡ record {
          part = record { again = false; flits = 1; sent = [] };
          place = Place.known null_packet;
        } }
    {
        let packet = Packet::null();
        let draft = Draft::of(&packet);
        UnderWay {
            again: false,
            flits: 1,
            sent: ArrayVec::new(),
            is_known: true,
            packet,
            draft,
            head: ZERO_FLIT,
            numbers: Numbers {
                frp: 0,
                seq: 0,
                rtc: 0,
            },
        }
    }

    /// It becomes a packet of two flits or more, whose first flit was sent.
    pub fn begin(&mut self, packet: &Packet, draft: Draft, again: bool, flit: Flit)
        requires draft { draft ≡ draft_of packet.now }
        requires lng { lng_of flit ≡ flits_of packet.now }
        requires more { 2 ≤ flits_of packet.now }
        ensures { Some self.new ≡ with_place (Place.known packet.now) (part_after again flit None) }
    {
        self.again = again;
        self.flits = packet.flits();
        self.sent.clear();
        self.sent.push(flit);
        self.is_known = true;
        self.packet = *packet;
        self.draft = draft;
    }

    /// It becomes a packet that is passed on, of which nothing was sent.
    pub fn begin_through(&mut self, head: Flit, flits: u8, numbers: Numbers)
        requires some { 2 ≤ flits }
        requires few { flits ≤ 17 }
        requires head { IsHead head flits }
        requires numbers { AreNumbers numbers }
        ensures { self.new ≡ record {
          part = record { again = false; flits = flits; sent = [] };
          place = Place.awaited head flits numbers;
        } }
    {
        self.again = false;
        self.flits = flits;
        self.sent.clear();
        self.is_known = false;
        self.head = head;
        self.numbers = numbers;
    }

    /// Does nothing. Its contract is what every packet under way keeps.
    pub fn invariant(&self)
        ensures { IsPartFit self.now.part self.now.place }
    {
        let _ = &self.flits;
    }

    /// What its flits are sent as.
    pub fn what(&self) -> What
        ensures { result ≡ part_what self.now.part }
    {
        if self.again { What::Again } else { What::New }
    }

    /// Whether one flit is left.
    pub fn is_at_last(&self) -> bool
        ensures { result ≡ (suc (length self.now.part.sent) == self.now.part.flits) }
    {
        self.sent.len() + 1 == usize::from(self.flits)
    }

    /// How many flits of it were sent, if it is passed on and its packet isn't known yet.
    pub fn through_at(&self) -> Option<u8>
        ensures { result ≡ flits_through self.now.place self.now.part }
    {
        if self.is_known {
            None
        } else {
            Some(self.sent.len() as u8)
        }
    }

    /// Its flits, if it is passed on and its packet isn't known yet, and else 0.
    pub fn open_flits(&self) -> u8
        ensures { result ≡ open_flits_at self.now.place }
    {
        if self.is_known { 0 } else { self.flits }
    }

    // The next flit of a packet that is passed on, with these numbers.
    fn fed_flit(&self, profile: Profile, numbers: Numbers, rrp: u16, feed: &Feed) -> Option<Flit>
        requires place { IsAwaitedPlace self.now.place numbers }
        requires forward { numbers.frp < modulus_of profile }
        requires rrp { rrp < modulus_of profile }
        requires feed { IsFedFor self.now.part self.now.place feed.now }
        ensures { result ≡ fed_flit profile numbers self.now.part.sent rrp feed.now }
    {
        match feed {
            Feed::Waiting => None,
            Feed::Whole(flit) => Some(*flit),
            Feed::Last {
                half,
                slid,
                errstat,
                good,
            } => {
                let sent = self.sent.as_slice();
                let copy = copy_of(profile, sent, half, *slid, *errstat, *good, numbers);
                Some(flit_of(profile, &copy, rrp, sent.len() as u8))
            }
        }
    }

    /// Its next flit, which has this return pointer if it is the last; `None` where it is passed on
    /// and the flit isn't there yet.
    pub fn next_flit(&self, profile: Profile, rrp: u16, feed: &Feed) -> Option<Flit>
        requires place { IsPlaceFit profile self.now.place }
        requires rrp { rrp < modulus_of profile }
        requires feed { IsFedFor self.now.part self.now.place feed.now }
        ensures { result ≡ next_flit profile rrp feed.now self.now.place self.now.part }
    {
        if self.is_known {
            let at = self.sent.len() as u8;
            Some(drafted_flit(profile, &self.packet, &self.draft, rrp, at))
        } else {
            self.fed_flit(profile, self.numbers, rrp, feed)
        }
    }

    /// The copy that is complete with what is fed.
    pub fn copy(&self, profile: Profile, feed: &Feed) -> Option<Packet>
        requires place { IsPlaceFit profile self.now.place }
        requires feed { IsFedFor self.now.part self.now.place feed.now }
        ensures packet { result ≡ copy_fed profile self.now.part self.now.place feed.now }
        ensures flits { IfSome result (λ copy. flits_of copy ≡ self.now.part.flits) }
        ensures fits { IfSome result (λ copy. CanBeSent profile copy) }
    {
        if self.is_known {
            return None;
        }
        match feed {
            Feed::Last {
                half,
                slid,
                errstat,
                good,
            } => {
                let sent = self.sent.as_slice();
                let numbers = self.numbers;
                Some(copy_of(profile, sent, half, *slid, *errstat, *good, numbers))
            }
            _ => None,
        }
    }

    /// Does nothing. Its contract is that what is fed fits the place: a copy is as long as it.
    pub fn fits(&self, feed: &Feed)
        requires feed { IsFedFor self.now.part self.now.place feed.now }
        ensures { (profile : Profile) →
            FitsPlace profile self.now.part self.now.place feed.now }
    {
        if self.is_known {
            return;
        }
        match feed {
            Feed::Last { half, .. } => copies_fit(self.sent.as_slice(), half),
            _ => {}
        }
    }

    /// One more of its flits was sent, which wasn't the last.
    pub fn push(&mut self, flit: Flit)
        requires more { (suc (length self.old.part.sent) == self.old.part.flits) ≡ false }
        requires head { IsHeadFirst self.old.part self.old.place flit }
        ensures { self.new ≡ record self.old {
          part = record self.old.part { sent = self.old.part.sent ++ flit ∷ [] };
        } }
    {
        self.sent.push(flit);
    }
}

/// The first flit of a packet that is sent with a return pointer.
pub fn first_flit(profile: Profile, packet: &Packet, draft: &Draft, rrp: u16) -> Flit
    requires draft { draft.now ≡ draft_of packet.now }
    requires fits { CanBeSent profile packet.now }
    requires rrp { rrp < modulus_of profile }
    ensures flit { result ≡ flit_of profile packet.now rrp 0 }
    ensures lng { lng_of result ≡ flits_of packet.now }
{
    packet.invariant();
    first_flit_names_length_and_command();
    spelling_is_as_long_as_its_packet();
    drafted_flit(profile, packet, draft, rrp, 0)
}
