//! The links of a network, called by the numbers of directions: link i has the direction 2i, which
//! goes Forth, and 2i + 1, which goes Back.

ghost use Rattle.std.specs.Prelude.{◌^◌, sum_by, ◌≡◌, ◌<◌, ◌≤◌, ◌/◌, ◌↔◌, [], ℕ, List, All, IfOk, IsTrue, false, true, length, option_map};
ghost use Rattle.hmc_codes.specs.Limits.{most_links};
ghost use Rattle.hmc_case.specs.declared.setup.LinkRow.{LinkRow};
ghost use Rattle.hmc_journal.specs.Links.{toward};
ghost use Rattle.hmc_ends.specs.Answers.{sends_none};
ghost use Rattle.hmc_link_end.specs.Answers.{send_answer};
ghost use Rattle.hmc_ends.specs.Outcomes.{land_outcome, outcome_passed, outcome_none};
ghost use Rattle.hmc_link.specs.Held.{held_on};
ghost use Rattle.hmc_link.specs.StandsFor.{LinkStandsFor};
ghost use Rattle.hmc_packet.specs.Head.{head_in};
ghost use Rattle.hmc_send.specs.LinkCalls.{LinkCall, names_flits};
ghost use Rattle.hmc_packet.specs.Landings.{mode};
ghost use Rattle.hmc_send.specs.LinkEntries.{LinkEntry, receiver_entries};
ghost use Rattle.hmc_send.specs.LinkSenders.{tokens};
ghost use Rattle.hmc_kept.specs.Called.{sizes_by, called};
ghost use Rattle.hmc_links.specs.LinkList.{AreGoing, LinksStandFor, IsDirection, IsRoom, IsArrival, IsFrontAt, IsGathered, IsThroughAt, IsTaking, MayHand, MaySend, MayBegin};
ghost use Rattle.hmc_links.specs.Tokens.{tokens_at};
ghost use Rattle.hmc_links.specs.Quiet.{IsQuietLink};

use hmc_case::LinkRow;
use hmc_codes::{Flit, LinkSetup, Memory, TokenRow};
use hmc_crossbar::PortBuffer;
use hmc_link::{Link, LinkOutcome, LinkSent, Toward};
use hmc_packet::{Feed, Mode, Packet};
use std::alloc::Global;
use std::marker::Model;

const NO_TOKENS: TokenRow = TokenRow {
    held: 0,
    transit: 0,
    used: 0,
    due: 0,
    returning: 0,
};

// The buffers of hosts and of ports are of one kind.
type NetLink = Link<PortBuffer, PortBuffer>;

/// The links of a network. Contracts see the list of what they hold.
#[derive(Drop)]
pub struct LinkList {
    links: Vec<NetLink>,
}

impl Model for LinkList {
    ghost use Rattle.std.specs.Prelude.{List};
    ghost use Rattle.hmc_link.specs.Held.{LinkHeld};

    ghost Value = { List LinkHeld };

    ghost view = { λ l. l.links.items };
}

impl LinkList {
    /// Links of these sizes that did nothing. No other call takes memory.
    pub fn build(alloc: Global, rows: &[LinkRow]) -> Result<Self, Memory>
        requires { length rows.now ≤ most_links }
        ensures { IfOk result (λ links. LinksStandFor rows.now links (λ link. [])) }
    {
        let mut links = Vec::with_capacity(alloc, rows.len())?;
        for row in rows {
            links.push(new_link(alloc, row.setup)?)?;
        }
        Ok(LinkList { links })
    }

    /// Whether the output queue of a direction has room for a packet.
    pub fn room(&self, direction: u8) -> bool
        requires { IsDirection self.now direction }
        ensures { IsRoom self.now direction result }
    {
        self.links[usize::from(direction / 2)].room(toward_of(direction))
    }

    /// Hands a packet to the output queue of a direction.
    pub fn hand(&mut self, direction: u8, packet: &Packet)
        requires there { IsDirection self.old direction }
        requires may { MayHand self.old direction packet.now }
        ensures { (rows : List LinkRow) (entries : ℕ → List LinkEntry) →
            LinksStandFor rows self.old entries → LinksStandFor rows self.new
            (called rows direction (λ d. LinkCall.hand d packet.now) entries) }
    {
        let link = &mut self.links[usize::from(direction / 2)];
        link.put(toward_of(direction), packet);
    }

    /// Whether the buffer at the end of a direction holds a packet.
    #[inline(always)]
    pub fn has_arrived(&self, direction: u8) -> bool
        requires { IsDirection self.now direction }
        ensures { IsArrival self.now direction result }
    {
        self.links[usize::from(direction / 2)].has_arrived(toward_of(direction))
    }

    /// The packet that has been longest in the buffer at the end of a direction, lent.
    #[inline(always)]
    pub fn front_ref(&self, direction: u8) -> Option<&Packet>
        requires { IsDirection self.now direction }
        ensures { IsFrontAt self.now direction (option_map (λ packet. packet.now) result) }
    {
        self.links[usize::from(direction / 2)].front_ref(toward_of(direction))
    }

    /// The packet that has been longest in the buffer at the end of a direction.
    pub fn front(&self, direction: u8) -> Option<Packet>
        requires { IsDirection self.now direction }
        ensures { IsFrontAt self.now direction result }
    {
        self.links[usize::from(direction / 2)].front(toward_of(direction))
    }

    /// Takes the front of the buffer at the end of a direction.
    pub fn take(&mut self, direction: u8)
        requires there { IsDirection self.old direction }
        requires going { AreGoing self.old }
        ensures { (rows : List LinkRow) (entries : ℕ → List LinkEntry) →
            LinksStandFor rows self.old entries →
            LinksStandFor rows self.new (called rows direction LinkCall.take entries) }
    {
        let link = &mut self.links[usize::from(direction / 2)];
        link.drop_front(toward_of(direction));
    }

    /// Sends the next flit of a direction, with what is fed to a packet that is forwarded onto it.
    #[inline(always)]
    pub fn send(&mut self, direction: u8, feed: Feed) -> LinkSent
        requires there { IsDirection self.old direction }
        requires may { MaySend self.old direction feed }
        ensures answer { (rows : List LinkRow) (entries : ℕ → List LinkEntry) →
            LinksStandFor rows self.old entries → result
            ≡ send_answer (sizes_by rows direction) (toward direction) (entries (direction / 2))
            feed }
        ensures stand { (rows : List LinkRow) (entries : ℕ → List LinkEntry) →
            LinksStandFor rows self.old entries → LinksStandFor rows self.new
            (called rows direction (λ d. LinkCall.send d feed) entries) }
        ensures idle { sends_none result ≡ true → self.new ≡ self.old }
    {
        let link = &mut self.links[usize::from(direction / 2)];
        link.send(toward_of(direction), feed)
    }

    /// Lands the front of the line of a direction, with the bits of the mask inverted.
    #[inline(always)]
    pub fn land(&mut self, direction: u8, mask: &Flit) -> LinkOutcome
        requires there { IsDirection self.old direction }
        requires going { AreGoing self.old }
        ensures answer { (rows : List LinkRow) (entries : ℕ → List LinkEntry) →
            LinksStandFor rows self.old entries → result
            ≡ land_outcome (sizes_by rows direction) (toward direction) (entries (direction / 2))
            mask.now }
        ensures stand { (rows : List LinkRow) (entries : ℕ → List LinkEntry) →
            LinksStandFor rows self.old entries → outcome_passed result ≡ false →
            LinksStandFor rows self.new
            (called rows direction (λ d. LinkCall.land d mask.now) entries) }
        ensures idle { outcome_none result ≡ true → self.new ≡ self.old }
    {
        let link = &mut self.links[usize::from(direction / 2)];
        link.land_in_place(toward_of(direction), mask)
    }

    /// The flits that are gathered at the end of a direction, at least one. `None` where none are.
    pub fn through_view(&self, direction: u8) -> Option<&[Flit]>
        requires { IsDirection self.now direction }
        ensures { IsGathered self.now direction (option_map (λ flits. flits.now) result) }
    {
        self.links[usize::from(direction / 2)].through_view(toward_of(direction))
    }

    /// The place, from 0, of the next flit of a packet that is forwarded onto a direction and
    /// unfinished. `None` where there is none.
    #[inline(always)]
    pub fn through_at(&self, direction: u8) -> Option<u8>
        requires { IsDirection self.now direction }
        ensures { IsThroughAt self.now direction result }
    {
        self.links[usize::from(direction / 2)].through_at(toward_of(direction))
    }

    /// Whether a direction can take a packet of so many flits that is forwarded.
    pub fn through_ready(&self, direction: u8, flits: u8) -> bool
        requires there { IsDirection self.now direction }
        requires going { AreGoing self.now }
        ensures { IsTaking self.now direction flits result }
    {
        self.links[usize::from(direction / 2)].through_ready(toward_of(direction), flits)
    }

    /// Begins a packet of so many flits in a direction, with this first flit, before it has come
    /// whole.
    pub fn begin_through(&mut self, direction: u8, head: Flit, flits: u8)
        requires there { IsDirection self.old direction }
        requires may { MayBegin self.old direction flits }
        requires named { names_flits flits (head_in head) ≡ true }
        ensures { (rows : List LinkRow) (entries : ℕ → List LinkEntry) →
            LinksStandFor rows self.old entries → LinksStandFor rows self.new
            (called rows direction (λ d. LinkCall.begin d head flits) entries) }
    {
        let link = &mut self.links[usize::from(direction / 2)];
        link.begin_through(toward_of(direction), head, flits);
    }

    /// The receiver of a direction loses its framing.
    pub fn unlock(&mut self, direction: u8)
        requires there { IsDirection self.old direction }
        requires going { AreGoing self.old }
        ensures { (rows : List LinkRow) (entries : ℕ → List LinkEntry) →
            LinksStandFor rows self.old entries →
            LinksStandFor rows self.new (called rows direction LinkCall.unlock entries) }
    {
        let link = &mut self.links[usize::from(direction / 2)];
        link.unlock(toward_of(direction));
    }

    /// The five numbers of the tokens of a direction.
    pub fn tokens(&self, direction: u8) -> TokenRow
        requires { IsDirection self.now direction }
        ensures { (rows : List LinkRow) (entries : ℕ → List LinkEntry) →
            LinksStandFor rows self.now entries → result
            ≡ tokens (sizes_by rows direction) (toward direction) (entries (direction / 2)) }
    {
        self.links[usize::from(direction / 2)].tokens(toward_of(direction))
    }

    /// The five numbers of the tokens of a direction; zeros where there is no such direction.
    pub fn row(&self, direction: u8) -> TokenRow
        ensures { result ≡ tokens_at self.now direction }
    {
        match self.links.get(usize::from(direction / 2)) {
            Some(link) => link.tokens(toward_of(direction)),
            None => NO_TOKENS,
        }
    }

    /// What the receiver of a direction waits for.
    pub fn mode(&self, direction: u8) -> Mode
        requires { IsDirection self.now direction }
        ensures { (rows : List LinkRow) (entries : ℕ → List LinkEntry) →
            LinksStandFor rows self.now entries → result
            ≡ mode (receiver_entries (toward direction) (entries (direction / 2))) }
    {
        self.links[usize::from(direction / 2)].mode(toward_of(direction))
    }

    /// The number of packets that all links hold.
    pub fn held(&self) -> u64
        ensures { sum_by held_on self.now < 2 ^ 64 → result ≡ sum_by held_on self.now }
    {
        held_in(&self.links)
    }

    /// Whether no link holds a packet, and no tokens are with packets under way.
    pub fn are_quiet(&self) -> bool
        ensures { IsTrue result ↔ All IsQuietLink self.now }
    {
        self.links.iter().all(|link| link.is_quiet())
    }
}

// The number of packets that these links hold.
fn held_in(links: &[NetLink]) -> u64
    ensures { sum_by held_on links.now < 2 ^ 64 → result ≡ sum_by held_on links.now }
{
    let mut held: u64 = 0;
    for link in links {
        held = held.saturating_add(link.held());
    }
    held
}

// A link that did nothing.
fn new_link(alloc: Global, setup: LinkSetup) -> Result<NetLink, Memory>
    ensures stands { IfOk result (λ link. LinkStandsFor setup link []) }
    ensures going { IfOk result (λ link. link.going ≡ true) }
{
    let a = PortBuffer::new(alloc, setup.tokens)?;
    let b = PortBuffer::new(alloc, setup.tokens)?;
    Link::new(alloc, setup, a, b)
}

// The way of a direction.
fn toward_of(direction: u8) -> Toward
    ensures { result ≡ toward direction }
{
    if direction % 2 == 0 {
        Toward::Forth
    } else {
        Toward::Back
    }
}
