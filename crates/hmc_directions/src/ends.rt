//! The ends of all links.

ghost use Rattle.std.specs.Prelude.{◌≡◌, ◌<◌, ◌≤◌, ◌/◌, ◌*◌, ◌↔◌, [], ℕ, List, All, IfOk, IsTrue, false, true, length, option_map};
ghost use Rattle.hmc_codes.specs.Limits.{most_links};
ghost use Rattle.hmc_case.specs.declared.setup.LinkRow.{LinkRow};
ghost use Rattle.hmc_journal.specs.Links.{toward};
ghost use Rattle.hmc_link_end.specs.Answers.{send_answer};
ghost use Rattle.hmc_codes.specs.Link.{IsLinkSetup};
ghost use Rattle.hmc_ends.specs.End.{IsQuiet};
ghost use Rattle.hmc_ends.specs.Parts.{parts_of};
ghost use Rattle.hmc_ends.specs.StandsFor.{EndStandsFor};
ghost use Rattle.hmc_send.specs.declared.toward.Toward.{Toward};
ghost use Rattle.hmc_ends.specs.Outcomes.{land_outcome, outcome_passed};
ghost use Rattle.hmc_packet.specs.Head.{head_in};
ghost use Rattle.hmc_packet.specs.Landings.{mode};
ghost use Rattle.hmc_routes.specs.Directions.{other};
ghost use Rattle.hmc_send.specs.LinkCalls.{LinkCall, names_flits};
ghost use Rattle.hmc_send.specs.LinkEntries.{LinkEntry, receiver_entries};
ghost use Rattle.hmc_send.specs.LinkSenders.{tokens};
ghost use Rattle.hmc_directions.specs.Ends.{row_at, EndsHold, HoldSome, IsDirection};
ghost use Rattle.hmc_kept.specs.ByDirection.{MayHand, MaySend, MayBegin, HasRoom, IsArrival, IsFrontAt, IsGathered, IsThroughAt, IsTaking};
ghost use Rattle.hmc_kept.specs.Called.{sizes_by, called};

use hmc_case::LinkRow;
use hmc_codes::{Flit, LinkSetup, Memory, TokenRow};
use hmc_ends::{LinkOutcome, LinkSent, feed_is_bytes, flit_is_bytes};
use hmc_link_end::{End, token_row};
use hmc_packet::{Feed, Mode, Packet, changes, under_mask};
use hmc_tokens::FlitBuffer;
use std::alloc::Global;
use std::marker::Model;

const NO_TOKENS: TokenRow = TokenRow {
    held: 0,
    transit: 0,
    used: 0,
    due: 0,
    returning: 0,
};

/// The ends of all links, each by the direction in which it sends: link i has the directions 2i and
/// 2i + 1. The other end of its link sends in the opposite direction. Contracts see the list of
/// what the ends hold.
#[derive(Drop)]
pub struct Ends {
    ends: Vec<End<FlitBuffer>>,
}

impl Model for Ends {
    ghost use Rattle.std.specs.Prelude.{List};
    ghost use Rattle.hmc_ends.specs.End.{EndFields};

    ghost Value = { List EndFields };

    ghost view = { λ e. e.ends.items };
}

// The opposite direction, whose sending end is the one at which a direction lands.
fn other(direction: u8) -> u8
    ensures { result ≡ other direction }
{
    if direction % 2 == 0 {
        direction + 1
    } else {
        direction - 1
    }
}

// The sizes and the profile of the link of a direction.
fn setup_at(rows: &[LinkRow], direction: usize) -> LinkSetup
    requires { direction < 2 * length rows.now }
    ensures { result ≡ sizes_by rows.now direction }
{
    rows[direction / 2].setup
}

// An end of a link that did nothing.
fn new_end(alloc: Global, setup: LinkSetup) -> Result<End<FlitBuffer>, Memory>
    ensures stands { IfOk result (λ e. (d : Toward) → EndStandsFor setup e (parts_of setup d [])) }
    ensures sizes { IfOk result (λ e. IsLinkSetup setup) }
{
    setup.invariant();
    let buffer = FlitBuffer::new(alloc, setup.tokens)?;
    End::new(alloc, setup, buffer)
}

impl Ends {
    /// The ends of these links, which did nothing. No other call takes memory.
    pub fn new(alloc: Global, rows: &[LinkRow]) -> Result<Self, Memory>
        requires { length rows.now ≤ most_links }
        ensures { IfOk result (λ ends. EndsHold rows.now ends (λ link. [])) }
    {
        let mut ends = Vec::with_capacity(alloc, 2 * rows.len())?;
        for direction in 0..2 * rows.len() {
            ends.push(new_end(alloc, setup_at(rows, direction))?)?;
        }
        Ok(Ends { ends })
    }

    /// Whether the output queue of a direction has room for a packet.
    pub fn has_room(&self, direction: u8) -> bool
        requires { IsDirection self.now direction }
        ensures { HasRoom EndsHold self.now direction result }
    {
        self.ends[usize::from(direction)].has_room()
    }

    /// Appends a packet to the output queue of a direction, which has room.
    pub fn hand(&mut self, direction: u8, packet: Packet)
        requires there { IsDirection self.old direction }
        requires may { MayHand EndsHold self.old direction packet }
        ensures { (rows : List LinkRow) (entries : ℕ → List LinkEntry) →
            EndsHold rows self.old entries → EndsHold rows self.new
            (called rows direction (λ d. LinkCall.hand d packet) entries) }
    {
        packet.invariant();
        self.ends[usize::from(direction)].hand(packet);
    }

    /// Whether the buffer where a direction lands holds a packet.
    pub fn has_arrived(&self, direction: u8) -> bool
        requires there { IsDirection self.now direction }
        requires some { HoldSome self.now }
        ensures { IsArrival EndsHold self.now direction result }
    {
        self.ends[usize::from(other(direction))].has_arrived()
    }

    /// The packet that has been longest in the buffer where a direction lands.
    pub fn front(&self, direction: u8) -> Option<Packet>
        requires there { IsDirection self.now direction }
        requires some { HoldSome self.now }
        ensures { IsFrontAt EndsHold self.now direction result }
    {
        self.ends[usize::from(other(direction))].front()
    }

    /// Takes that packet away.
    pub fn take(&mut self, direction: u8)
        requires there { IsDirection self.old direction }
        requires some { HoldSome self.old }
        ensures { (rows : List LinkRow) (entries : ℕ → List LinkEntry) →
            EndsHold rows self.old entries →
            EndsHold rows self.new (called rows direction LinkCall.take entries) }
    {
        let _ = self.ends[usize::from(other(direction))].take();
    }

    /// Sends the next flit of a direction, with what is fed to a packet that is forwarded onto it.
    pub fn send(&mut self, direction: u8, feed: Feed) -> LinkSent
        requires there { IsDirection self.old direction }
        requires may { MaySend EndsHold self.old direction feed }
        ensures answer { (rows : List LinkRow) (entries : ℕ → List LinkEntry) →
            EndsHold rows self.old entries → result
            ≡ send_answer (sizes_by rows direction) (toward direction) (entries (direction / 2))
            feed }
        ensures stand { (rows : List LinkRow) (entries : ℕ → List LinkEntry) →
            EndsHold rows self.old entries → EndsHold rows self.new
            (called rows direction (λ d. LinkCall.send d feed) entries) }
    {
        feed_is_bytes(&feed);
        self.ends[usize::from(direction)].send(feed)
    }

    /// Lands the front of the line of a direction, with the bits of the mask inverted.
    pub fn land(&mut self, direction: u8, mask: &Flit) -> LinkOutcome
        requires there { IsDirection self.old direction }
        requires some { HoldSome self.old }
        ensures answer { (rows : List LinkRow) (entries : ℕ → List LinkEntry) →
            EndsHold rows self.old entries → result
            ≡ land_outcome (sizes_by rows direction) (toward direction) (entries (direction / 2))
            mask.now }
        ensures stand { (rows : List LinkRow) (entries : ℕ → List LinkEntry) →
            EndsHold rows self.old entries → outcome_passed result ≡ false →
            EndsHold rows self.new
            (called rows direction (λ d. LinkCall.land d mask.now) entries) }
        ensures count { length self.new ≡ length self.old }
    {
        let Some(sent) = self.ends[usize::from(direction)].take_flit() else {
            return LinkOutcome::Empty;
        };
        let flit = under_mask(mask, &sent);
        let to = &mut self.ends[usize::from(other(direction))];
        let landed = to.land_in_place(&flit, changes(mask));
        match landed {
            None => LinkOutcome::Passed(flit),
            Some(outcome) => {
                let flits = to.arrived_flits(outcome);
                self.ends[usize::from(direction)].leave_transit(flits);
                LinkOutcome::Came { flit, outcome }
            }
        }
    }

    /// The receiver of a direction loses its framing.
    pub fn unlock(&mut self, direction: u8)
        requires there { IsDirection self.old direction }
        requires some { HoldSome self.old }
        ensures { (rows : List LinkRow) (entries : ℕ → List LinkEntry) →
            EndsHold rows self.old entries →
            EndsHold rows self.new (called rows direction LinkCall.unlock entries) }
    {
        self.ends[usize::from(other(direction))].unlock();
    }

    /// The flits that are gathered where a direction lands, at least one. `None` where none are.
    pub fn gathered(&self, direction: u8) -> Option<&[Flit]>
        requires there { IsDirection self.now direction }
        requires some { HoldSome self.now }
        ensures { IsGathered EndsHold self.now direction (option_map (λ flits. flits.now) result) }
    {
        self.ends[usize::from(other(direction))].through_view()
    }

    /// What the receiver of a direction waits for.
    pub fn mode(&self, direction: u8) -> Mode
        requires there { IsDirection self.now direction }
        requires some { HoldSome self.now }
        ensures { (rows : List LinkRow) (entries : ℕ → List LinkEntry) →
            EndsHold rows self.now entries → result
            ≡ mode (receiver_entries (toward direction) (entries (direction / 2))) }
    {
        self.ends[usize::from(other(direction))].mode()
    }

    /// The place, from 0, of the next flit of a packet that is forwarded onto a direction and
    /// unfinished. `None` where there is none.
    pub fn through_at(&self, direction: u8) -> Option<u8>
        requires { IsDirection self.now direction }
        ensures { IsThroughAt EndsHold self.now direction result }
    {
        self.ends[usize::from(direction)].through_at()
    }

    /// Whether a direction can take a packet of so many flits that is forwarded.
    pub fn through_ready(&self, direction: u8, flits: u8) -> bool
        requires { IsDirection self.now direction }
        ensures { IsTaking EndsHold self.now direction flits result }
    {
        self.ends[usize::from(direction)].through_ready(flits)
    }

    /// Begins a packet of so many flits in a direction, with this first flit, before it has come
    /// whole.
    pub fn begin_through(&mut self, direction: u8, head: Flit, flits: u8)
        requires there { IsDirection self.old direction }
        requires may { MayBegin EndsHold self.old direction flits }
        requires named { names_flits flits (head_in head) ≡ true }
        ensures { (rows : List LinkRow) (entries : ℕ → List LinkEntry) →
            EndsHold rows self.old entries → EndsHold rows self.new
            (called rows direction (λ d. LinkCall.begin d head flits) entries) }
    {
        flit_is_bytes(&head);
        self.ends[usize::from(direction)].begin_through(head, flits);
    }

    /// The tokens of a direction.
    pub fn tokens(&self, direction: u8) -> TokenRow
        requires there { IsDirection self.now direction }
        requires some { HoldSome self.now }
        ensures { (rows : List LinkRow) (entries : ℕ → List LinkEntry) →
            EndsHold rows self.now entries → result
            ≡ tokens (sizes_by rows direction) (toward direction) (entries (direction / 2)) }
    {
        let from = &self.ends[usize::from(direction)];
        let to = &self.ends[usize::from(other(direction))];
        token_row(from, to)
    }

    /// The same; zeros where there is no such direction.
    pub fn row(&self, direction: u8) -> TokenRow
        ensures { result ≡ row_at self.now direction }
    {
        let from = self.ends.get(usize::from(direction));
        let to = self.ends.get(usize::from(other(direction)));
        match (from, to) {
            (Some(from), Some(to)) => token_row(from, to),
            _ => NO_TOKENS,
        }
    }

    /// Whether no end holds a packet, and no tokens are with packets under way.
    pub fn are_quiet(&self) -> bool
        ensures { IsTrue result ↔ All IsQuiet self.now }
    {
        self.ends.iter().all(|end| end.is_quiet())
    }
}
