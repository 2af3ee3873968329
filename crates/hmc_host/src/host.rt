//! One host.

ghost use Rattle.std.specs.Prelude.{◌≡◌, ◌≢◌, ◌<◌, ◌≤◌, ◌↔◌, ℕ, IfOk, OnOk, OnErr, true, false, length, []};
ghost use Rattle.std.specs.Option.{ForSome};
ghost use Rattle.hmc_codes.specs.Limits.{most_asked, most_hosts, tags as all_tags};
ghost use Rattle.hmc_host.specs.Tags.{number_out, IsFree, IsOut, IsLowestFree};
ghost use Rattle.hmc_host.specs.Host.{opening_host, asked, asked_count, IsHost};
ghost use Rattle.hmc_host.specs.Give.{wants_tag, outline_wants_tag, tag_for, gave_request, is_at_end, give_says, after_give, taken_tag, hindrance_of, hindrance_by, nothing_given};
ghost use Rattle.hmc_host.specs.Settle.{IsAwaited, settle_says, after_settle};

use crate::tags::Tags;
use crate::waiting::Waiting;
use crate::{Given, Hindrance, Settled};
use hmc_codes::{Memory, Request};
use hmc_packet::{Packet, answer_of, ask};
use hmc_script::{Item, Outline, Script};
use std::alloc::Global;
use std::marker::Model;

/// One host. Contracts see its number, the requests that it has not given yet, the number of those
/// given, and its tags. It forgets requests that it gave.
#[derive(Drop)]
pub struct Host {
    number: u8,
    // Its own requests that it has not given yet.
    left: Waiting,
    given: u32,
    tags: Tags,
}

impl Model for Host {
    ghost use Rattle.hmc_host.specs.Host.{HostFields, IsHost};

    ghost Value = { HostFields };

    ghost view = { λ h. record {
      number = h.number;
      left = h.left;
      given = h.given;
      tags = h.tags;
    } };

    ghost invariant = { λ h. IsHost (record {
      number = h.number;
      left = h.left;
      given = h.given;
      tags = h.tags;
    }) };
}

impl Host {
    /// A host that has given none of its requests of a script. The number is below 8.
    pub fn new(alloc: Global, number: u8, script: &Script) -> Result<Self, Memory>
        requires { number < most_hosts }
        ensures { IfOk result (λ host. host ≡ opening_host number script.now) }
    {
        let items = script.of_host(alloc, number)?;
        let tags = Tags::new(alloc)?;
        items.invariant();
        tags.invariant();
        Ok(Host {
            number,
            left: Waiting::of(alloc, items),
            given: 0,
            tags,
        })
    }

    /// Does nothing. Its contract is what every host keeps.
    pub fn invariant(&self)
        ensures { IsHost self.now }
    {
        let _ = &self.number;
    }

    /// The number of tags that are out, at most `TAGS`.
    pub fn out(&self) -> u16
        ensures number { result ≡ number_out self.now.tags }
        ensures few { result ≤ all_tags }
    {
        self.tags.out()
    }

    /// Why `give` would give nothing now, if it would give nothing. The link has room or not.
    pub fn hindrance(&self, room: bool) -> Option<Hindrance>
        ensures { result ≡ hindrance_of (give_says self.now room) }
    {
        hindrance_by(self.left.outline(), &self.tags, room)
    }

    /// For how many requests it was asked, given or not.
    pub fn asked(&self) -> u32
        ensures { result ≡ asked_count self.now }
    {
        self.given + self.left.len()
    }

    /// Whether it has given all of its requests.
    pub fn is_at_end(&self) -> bool
        ensures { result ≡ is_at_end self.now }
    {
        self.left.outline().is_none()
    }

    /// Asks for one request more, which the host gives after its others. It was asked for fewer
    /// than `MOST_ASKED`. Where it is out of memory nothing changes.
    pub fn ask(&mut self, fenced: bool, poisoned: bool, request: &Request) -> Result<(), Memory>
        requires { asked_count self.old < most_asked }
        ensures ok { OnOk result (self.new ≡ asked (record {
          host = self.old.number;
          fenced = fenced;
          poisoned = poisoned;
          request = request.now;
        }) self.old) }
        ensures err { OnErr result (self.new ≡ self.old) }
    {
        self.invariant();
        self.left.append(self.number, fenced, poisoned, request)
    }

    /// Gives the next request to the link, which has room or not.
    #[inline(always)]
    pub fn give(&mut self, room: bool) -> Given
        ensures answer { result ≡ give_says self.old room }
        ensures leaves { self.new ≡ after_give result self.old }

        // Where it ends, where it lacks a tag, and which tag it takes.
        ensures ended { (result ≡ Given.Ended) ↔ (self.old.left ≡ []) }
        ensures tags { result ≡ Given.Tags → (tag : ℕ) → tag < all_tags → IsOut self.old.tags tag }
        ensures lowest { ForSome (taken_tag result) (IsLowestFree self.old.tags) }
    {
        self.invariant();
        let given = self.next_given(room);
        self.note(&given);
        given
    }

    /// Takes the answer of a packet that came, and frees its tag. A packet that isn't poisoned is a
    /// reply whose tag is out.
    pub fn settle(&mut self, packet: &Packet) -> Settled
        requires { packet.now.poisoned ≡ false → IsAwaited self.old packet.now }
        ensures answer { result ≡ settle_says packet.now }
        ensures leaves { self.new ≡ after_settle result self.old }
        ensures discarded { (result ≡ Settled.Discarded) ↔ (packet.now.poisoned ≡ true) }
    {
        if packet.poisoned {
            return Settled::Discarded;
        }
        self.tags.free(packet.tag);
        Settled::Took {
            tag: packet.tag,
            answer: answer_of(packet).unwrap(),
        }
    }

    // What is given next.
    #[tactic(auto, unfolding(crate::specs::Give::give_says))]
    #[inline(always)]
    fn next_given(&self, room: bool) -> Given
        ensures { result ≡ give_says self.now room }
    {
        if let Some(hindrance) = self.hindrance(room) {
            return nothing_given(hindrance);
        }
        let item = self.left.first();
        gave_request(self.number, &item, tag_for(&item, &self.tags))
    }

    // A request was given, or nothing.
    fn note(&mut self, given: &Given)
        requires left { given.now ≢ Given.Ended → 0 < length self.old.left }
        requires free { ForSome (taken_tag given.now) (IsFree self.old.tags) }
        ensures { self.new ≡ after_give given.now self.old }
    {
        if let Given::Gave { tag, .. } = given {
            self.given += 1;
            self.left.drop_first();
            self.tags.take(*tag);
        }
    }
}

// Whether a request is to be answered.
fn wants_tag(item: &Item) -> bool
    ensures { result ≡ wants_tag item.now }
{
    !item.poisoned && !item.request.command.posted()
}

// Whether a request of this outline is to be answered.
fn outline_wants_tag(outline: &Outline) -> bool
    ensures { result ≡ outline_wants_tag outline.now }
{
    !outline.poisoned && !outline.command.posted()
}

// Why the next request isn't given, if it isn't. This is its outline, if there is one.
fn hindrance_by(outline: Option<Outline>, tags: &Tags, room: bool) -> Option<Hindrance>
    ensures { result ≡ hindrance_by outline tags.now room }
{
    let Some(outline) = outline else {
        return Some(Hindrance::Ended);
    };
    if outline.fenced && tags.is_some_out() {
        return Some(Hindrance::Fence);
    }
    if outline_wants_tag(&outline) && tags.are_all_out() {
        return Some(Hindrance::Tags);
    }
    if !room {
        return Some(Hindrance::Full);
    }
    None
}

// The tag that a request goes out under, if it is to have one and there is one.
fn tag_for(item: &Item, tags: &Tags) -> Option<u16>
    ensures { result ≡ tag_for item.now tags.now }
{
    if wants_tag(item) {
        tags.lowest_free()
    } else {
        None
    }
}

// Nothing, for this reason.
fn nothing_given(hindrance: Hindrance) -> Given
    ensures { result ≡ nothing_given hindrance }
{
    match hindrance {
        Hindrance::Ended => Given::Ended,
        Hindrance::Fence => Given::Fence,
        Hindrance::Tags => Given::Tags,
        Hindrance::Full => Given::Full,
    }
}

// A request as it goes out.
#[inline(always)]
fn gave_request(number: u8, item: &Item, tag: Option<u16>) -> Given
    requires number { number < most_hosts }
    requires tag { ForSome tag (λ tag. tag < all_tags) }
    ensures { result ≡ gave_request number item.now tag }
{
    Given::Gave {
        packet: ask(&item.request, tag.unwrap_or(0), number, item.poisoned),
        request: item.request,
        tag,
        poisoned: item.poisoned,
    }
}
