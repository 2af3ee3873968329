//! The place of the packet under way.

ghost use Rattle.std.specs.Prelude.{◌≡◌, ◌<◌, ◌≤◌, ◌==◌, suc, false, [], None, Some, IfSome, is_some, length, option_map};
ghost use Rattle.hmc_packet.specs.Draft.{draft_of};
ghost use Rattle.hmc_packet.specs.Packet.{flits_of};
ghost use Rattle.hmc_packet.specs.Parts.{lng_of};
ghost use Rattle.hmc_send.specs.Entries.{part_after, with_place};
ghost use Rattle.hmc_send.specs.Kept.{AreNumbers, IsHead, IsHeadFirst};
ghost use Rattle.hmc_send.specs.Places.{Place};
ghost use Rattle.hmc_send.specs.Sender.{longer};

use crate::Numbers;
use crate::under_way::UnderWay;
use hmc_codes::Flit;
use hmc_packet::{Draft, Packet};
use std::marker::Model;

/// The packet that is begun and has flits left, if there is one.
///
/// One packet after another is begun in the same place, so that none is moved when it begins or
/// ends.
#[derive(Drop)]
pub struct Unfinished {
    is_begun: bool,
    // The packet under way, or else one that has ended.
    latest: UnderWay,
}

impl Model for Unfinished {
    ghost use Rattle.std.specs.Prelude.{Option, Some, None, if◌then◌else◌};
    ghost use Rattle.hmc_send.specs.Entries.{UnderWay as Begun};

    ghost Value = { Option Begun };

    ghost view = { λ u. if u.is_begun then Some u.latest else None };
}

impl Unfinished {
    /// No packet is under way.
    pub fn none() -> Self
        ensures { result ≡ None }
    {
        Unfinished {
            is_begun: false,
            latest: UnderWay::ended(),
        }
    }

    /// Whether a packet is under way.
    pub fn is_begun(&self) -> bool
        ensures { result ≡ is_some self.now }
    {
        self.is_begun
    }

    /// The packet under way, lent.
    pub fn get(&self) -> Option<&UnderWay>
        ensures { option_map (λ begun. begun.now) result ≡ self.now }
    {
        if self.is_begun {
            Some(&self.latest)
        } else {
            None
        }
    }

    /// A packet of two flits or more is under way, whose first flit was sent.
    pub fn begin(&mut self, packet: &Packet, draft: Draft, again: bool, flit: Flit)
        requires draft { draft ≡ draft_of packet.now }
        requires lng { lng_of flit ≡ flits_of packet.now }
        requires more { 2 ≤ flits_of packet.now }
        ensures { self.new ≡ with_place (Place.known packet.now) (part_after again flit None) }
    {
        self.latest.begin(packet, draft, again, flit);
        self.is_begun = true;
    }

    /// A packet that is passed on is under way, of which nothing was sent.
    pub fn begin_through(&mut self, head: Flit, flits: u8, numbers: Numbers)
        requires some { 2 ≤ flits }
        requires few { flits ≤ 17 }
        requires head { IsHead head flits }
        requires numbers { AreNumbers numbers }
        ensures { self.new ≡ Some (record {
          part = record { again = false; flits = flits; sent = [] };
          place = Place.awaited head flits numbers;
        }) }
    {
        self.latest.begin_through(head, flits, numbers);
        self.is_begun = true;
    }

    /// A flit of the packet under way was sent, which wasn't its last.
    pub fn push(&mut self, flit: Flit)
        requires more { IfSome self.old (λ begun.
            (suc (length begun.part.sent) == begun.part.flits) ≡ false) }
        requires head { IfSome self.old (λ begun. IsHeadFirst begun.part begun.place flit) }
        ensures { self.new ≡ longer flit self.old }
    {
        if self.is_begun {
            self.latest.push(flit);
        }
    }

    /// The last flit was sent: no packet is under way.
    pub fn end(&mut self)
        ensures { self.new ≡ None }
    {
        self.is_begun = false;
    }
}
