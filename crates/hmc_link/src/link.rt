//! A link.

ghost use Rattle.std.specs.Prelude.{◌≡◌, ◌<◌, ◌+◌, ◌++◌, ◌∷◌, ◌↔◌, ℕ, IsTrue, map, true, false, not, [], List, IfOk, Some, is_some, length, nat_lt, slice_get, option_map};
ghost use Rattle.hmc_codes.specs.Link.{LinkFields};
ghost use Rattle.hmc_packet.specs.declared.feed.Feed.TheVariants.{Waiting};
ghost use Rattle.hmc_packet.specs.Head.{head_in};
ghost use Rattle.hmc_packet.specs.Landings.{mode, pending};
ghost use Rattle.hmc_packet.specs.Packet.{flits_of};
ghost use Rattle.hmc_send.specs.Entries.{through_place, through_at};
ghost use Rattle.hmc_send.specs.Given.{IsTaken};
ghost use Rattle.hmc_send.specs.IsSender.{IsFed};
ghost use Rattle.hmc_send.specs.LinkCalls.{LinkCall, has_room, may_pass_on, names_flits, view_in};
ghost use Rattle.hmc_send.specs.LinkEntries.{LinkEntry, other, receiver_entries};
ghost use Rattle.hmc_send.specs.LinkSenders.{sender_entries, tokens};
ghost use Rattle.hmc_link.specs.Held.{held_on, sending_end, landing_end};
ghost use Rattle.hmc_ends.specs.End.{row_held, is_ready, flits_seen, IsQuiet};
ghost use Rattle.hmc_ends.specs.Answers.{after_call, front_in, sends_none};
ghost use Rattle.hmc_ends.specs.Landings.{landing_passed, lands_none, is_out_of_order, removed, IsUntouched};
ghost use Rattle.hmc_ends.specs.Outcomes.{link_landed_with, outcome_passed, outcome_none};
ghost use Rattle.hmc_receive.specs.StandsFor.{latest};
ghost use Rattle.hmc_ends.specs.List.{handed_list, listed_packet, listed_open};
ghost use Rattle.hmc_link_laws.specs.Lists.{list_after_send};
ghost use Rattle.hmc_link_laws.specs.Pointers.{pointer_landed, Acknowledges};
ghost use Rattle.hmc_link_laws.specs.Tokens.{TokensBalance};
ghost use Rattle.hmc_link_laws.specs.Wire.{IsWire};
ghost use Rattle.hmc_link.specs.Calls.{MakesCall, KeepsList};
ghost use Rattle.hmc_link.specs.StandsFor.{LinkStandsFor};
ghost use Rattle.hmc_link_end.specs.Answers.{land_answer, send_answer};

use crate::Toward;
use crate::crossing::{cross, has_passed, without_landed};
use hmc_codes::{Flit, LinkSetup, Memory, TokenRow};
use hmc_ends::{LinkLanded, LinkOutcome, LinkSent, feed_is_bytes, flit_is_bytes, link_landed_with};
use hmc_link_end::{End, token_row};
use hmc_packet::{Feed, Mode, Packet};
use hmc_tokens::Intake;
use std::alloc::Global;
use std::marker::Model;

/// A link between two ends, each with a buffer for the packets that come to it. Direction Forth
/// goes from the first end to the second, Back from the second to the first.
///
/// Contracts see which lists of entries it stands for, and whether it is going: no landing has
/// passed.
#[derive(Drop)]
pub struct Link<A: Intake, B: Intake> {
    a: End<A>,
    b: End<B>,
    going: bool,
    // The lengths of the lists of the two directions.
    forth: u32,
    back: u32,
}

impl<A: Intake, B: Intake> Model for Link<A, B> {
    ghost use Rattle.hmc_send.specs.LinkLines.{line};
    ghost use Rattle.hmc_send.specs.LinkSenders.{sender_entries, tokens};
    ghost use Rattle.hmc_link.specs.Held.{LinkHeld};
    ghost use Rattle.hmc_link.specs.StandsFor.{IsLink};

    ghost Value = { LinkHeld };

    ghost view = { λ l. record {
      a = l.a;
      b = l.b;
      going = l.going;
      forth = l.forth;
      back = l.back;
    } };

    ghost invariant = { λ l. IsLink (record {
      a = l.a;
      b = l.b;
      going = l.going;
      forth = l.forth;
      back = l.back;
    }) };
}

impl<A: Intake, B: Intake> Link<A, B> {
    /// A link that did nothing. The buffers are empty, as large as the tokens that an end
    /// advertises, and in each a packet costs its flits. No other call takes memory.
    pub fn new(alloc: Global, setup: LinkSetup, a: A, b: B) -> Result<Self, Memory>
        requires a_empty { A.packets a ≡ [] }
        requires a_size { A.size a ≡ setup.tokens }
        requires a_cost { A.cost a ≡ flits_of }
        requires b_empty { B.packets b ≡ [] }
        requires b_size { B.size b ≡ setup.tokens }
        requires b_cost { B.cost b ≡ flits_of }
        ensures stands { IfOk result (λ link. LinkStandsFor setup link []) }
        ensures going { IfOk result (λ link. link.going ≡ true) }
    {
        setup.invariant();
        let a = End::new(alloc, setup, a)?;
        let b = End::new(alloc, setup, b)?;
        Ok(Link {
            a,
            b,
            going: true,
            forth: 0,
            back: 0,
        })
    }

    /// Whether the output queue of a direction has room for a packet.
    pub fn room(&self, toward: Toward) -> bool
        ensures value { result ≡ nat_lt (length (sending_end toward self.now).queue)
            (sending_end toward self.now).setup.output }
        ensures by_list { (link : LinkFields) (past : List LinkEntry) →
            LinkStandsFor link self.now past → result ≡ has_room link toward past }
    {
        match toward {
            Toward::Forth => self.a.has_room(),
            Toward::Back => self.b.has_room(),
        }
    }

    /// Hands a packet to the output queue of a direction, which has room.
    pub fn put(&mut self, toward: Toward, packet: &Packet)
        requires going { self.old.going ≡ true }
        requires room { length (sending_end toward self.old).queue
            < (sending_end toward self.old).setup.output }
        requires fit { IsTaken (sending_end toward self.old).setup.profile packet.now }
        ensures stands { MakesCall self.old self.new (LinkCall.hand toward packet.now) }
        ensures list { (link : LinkFields) (past : List LinkEntry) →
            LinkStandsFor link self.old past →
            handed_list link toward (after_call link past (LinkCall.hand toward packet.now))
            ≡ handed_list link toward past ++ listed_packet packet.now ∷ [] }
        ensures other { KeepsList self.old (other toward) (LinkCall.hand toward packet.now) }
        ensures going { self.new.going ≡ true }
    {
        packet.invariant();
        match toward {
            Toward::Forth => {
                self.a.put(packet);
                self.forth += 1;
            }
            Toward::Back => {
                self.b.put(packet);
                self.back += 1;
            }
        }
    }

    /// Hands a packet to the output queue of a direction, which has room.
    pub fn hand(&mut self, toward: Toward, packet: Packet)
        requires going { self.old.going ≡ true }
        requires room { length (sending_end toward self.old).queue
            < (sending_end toward self.old).setup.output }
        requires fit { IsTaken (sending_end toward self.old).setup.profile packet }
        ensures stands { MakesCall self.old self.new (LinkCall.hand toward packet) }
        ensures list { (link : LinkFields) (past : List LinkEntry) →
            LinkStandsFor link self.old past →
            handed_list link toward (after_call link past (LinkCall.hand toward packet))
            ≡ handed_list link toward past ++ listed_packet packet ∷ [] }
        ensures other { KeepsList self.old (other toward) (LinkCall.hand toward packet) }
        ensures going { self.new.going ≡ true }
    {
        self.put(toward, &packet);
    }

    /// The packet that has been longest in the buffer at the end of a direction, lent.
    pub fn front_ref(&self, toward: Toward) -> Option<&Packet>
        ensures value { option_map (λ packet. packet.now) result
            ≡ slice_get (landing_end toward self.now).buffer 0 }
        ensures by_list { (link : LinkFields) (past : List LinkEntry) →
            LinkStandsFor link self.now past →
            option_map (λ packet. packet.now) result ≡ front_in link toward past }
    {
        match toward {
            Toward::Forth => self.b.front_ref(),
            Toward::Back => self.a.front_ref(),
        }
    }

    /// The packet that has been longest in the buffer at the end of a direction.
    pub fn front(&self, toward: Toward) -> Option<Packet>
        ensures value { result ≡ slice_get (landing_end toward self.now).buffer 0 }
        ensures by_list { (link : LinkFields) (past : List LinkEntry) →
            LinkStandsFor link self.now past → result ≡ front_in link toward past }
    {
        self.front_ref(toward).copied()
    }

    /// Removes the front of the buffer at the end of a direction, if there is one; its tokens are
    /// then due there.
    pub fn drop_front(&mut self, toward: Toward)
        requires { self.old.going ≡ true }
        ensures stands { MakesCall self.old self.new (LinkCall.take toward) }
        ensures list { KeepsList self.old toward (LinkCall.take toward) }
        ensures other { KeepsList self.old (other toward) (LinkCall.take toward) }
        ensures going { self.new.going ≡ true }
    {
        match toward {
            Toward::Forth => self.b.drop_front(),
            Toward::Back => self.a.drop_front(),
        }
    }

    /// Takes the front of the buffer at the end of a direction; its tokens are then due there.
    pub fn take(&mut self, toward: Toward) -> Option<Packet>
        requires { self.old.going ≡ true }
        ensures value { result ≡ slice_get (landing_end toward self.old).buffer 0 }
        ensures by_list { (link : LinkFields) (past : List LinkEntry) →
            LinkStandsFor link self.old past → result ≡ front_in link toward past }
        ensures stands { MakesCall self.old self.new (LinkCall.take toward) }
        ensures list { KeepsList self.old toward (LinkCall.take toward) }
        ensures other { KeepsList self.old (other toward) (LinkCall.take toward) }
        ensures going { self.new.going ≡ true }
    {
        let front = self.front(toward);
        self.drop_front(toward);
        front
    }

    /// Whether the buffer at the end of a direction holds a packet.
    pub fn has_arrived(&self, toward: Toward) -> bool
        ensures value { result ≡ is_some (slice_get (landing_end toward self.now).buffer 0) }
        ensures by_list { (link : LinkFields) (past : List LinkEntry) →
            LinkStandsFor link self.now past → result ≡ is_some (front_in link toward past) }
    {
        match toward {
            Toward::Forth => self.b.has_arrived(),
            Toward::Back => self.a.has_arrived(),
        }
    }

    /// What the receiver of a direction waits for.
    pub fn mode(&self, toward: Toward) -> Mode
        ensures value { self.now.going ≡ true →
            result ≡ (landing_end toward self.now).receiver.mode }
        ensures by_list { (link : LinkFields) (past : List LinkEntry) →
            LinkStandsFor link self.now past → result ≡ mode (receiver_entries toward past) }
    {
        match toward {
            Toward::Forth => self.b.mode(),
            Toward::Back => self.a.mode(),
        }
    }

    /// The framing of a direction was lost: the flits of a packet that isn't whole are dropped.
    pub fn unlock(&mut self, toward: Toward)
        requires { self.old.going ≡ true }
        ensures stands { MakesCall self.old self.new (LinkCall.unlock toward) }
        ensures list { KeepsList self.old toward (LinkCall.unlock toward) }
        ensures other { KeepsList self.old (other toward) (LinkCall.unlock toward) }
        ensures going { self.new.going ≡ true }
    {
        match toward {
            Toward::Forth => self.b.unlock(),
            Toward::Back => self.a.unlock(),
        }
    }

    /// Sends the next flit of a direction. `Full` exactly where its line holds as many flits as it
    /// can; else `Starved` exactly where the receiver at the same end is trained, a packet that is
    /// forwarded is under way, and its next flit isn't there. Packets are on the line whole and
    /// unmixed.
    #[inline(always)]
    pub fn send(&mut self, toward: Toward, feed: Feed) -> LinkSent
        requires going { self.old.going ≡ true }
        requires feed { IsFed (sending_end toward self.old).sender.under_way feed }
        ensures answer { (link : LinkFields) (past : List LinkEntry) →
            LinkStandsFor link self.old past → result ≡ send_answer link toward past feed }
        ensures stands { MakesCall self.old self.new (LinkCall.send toward feed) }
        ensures list { (link : LinkFields) (past : List LinkEntry) →
            LinkStandsFor link self.old past →
            handed_list link toward (after_call link past (LinkCall.send toward feed))
            ≡ list_after_send link toward past feed result }
        ensures other { KeepsList self.old (other toward) (LinkCall.send toward feed) }
        ensures whole { (link : LinkFields) (past : List LinkEntry) →
            LinkStandsFor link self.old past →
            IsWire link toward (after_call link past (LinkCall.send toward feed)) }
        ensures idle { sends_none result ≡ true → self.new ≡ self.old }
        ensures going { self.new.going ≡ true }
    {
        feed_is_bytes(&feed);
        match toward {
            Toward::Forth => self.a.send(feed),
            Toward::Back => self.b.send(feed),
        }
    }

    /// The packet that a direction accepted last, poisoned or not; a NULL if it accepted none.
    pub fn latest(&self, toward: Toward) -> &Packet
        ensures value { result.now ≡ (landing_end toward self.now).receiver.packet }
        ensures by_list { (link : LinkFields) (past : List LinkEntry) →
            LinkStandsFor link self.now past →
            result.now ≡ latest link.profile (receiver_entries toward past) }
    {
        match toward {
            Toward::Forth => self.b.latest(),
            Toward::Back => self.a.latest(),
        }
    }

    /// Lands the front of the line of a direction, as [`Link::land`]. Where a packet is accepted,
    /// [`Link::latest`] lends it.
    #[inline(always)]
    pub fn land_in_place(&mut self, toward: Toward, mask: &Flit) -> LinkOutcome
        requires { self.old.going ≡ true }
        ensures answer { (link : LinkFields) (past : List LinkEntry) →
            LinkStandsFor link self.old past →
            link_landed_with result (landing_end toward self.new).receiver.packet
            ≡ land_answer link toward past mask.now }
        ensures stands { (link : LinkFields) (past : List LinkEntry) →
            LinkStandsFor link self.old past → outcome_passed result ≡ false →
            LinkStandsFor link self.new (after_call link past (LinkCall.land toward mask.now)) }
        ensures list { (link : LinkFields) (past : List LinkEntry) →
            LinkStandsFor link self.old past → outcome_passed result ≡ false →
            handed_list link toward past ≡ map listed_packet (removed
            (link_landed_with result (landing_end toward self.new).receiver.packet))
            ++ handed_list link toward (after_call link past (LinkCall.land toward mask.now)) }
        ensures other { KeepsList self.old (other toward) (LinkCall.land toward mask.now) }
        ensures counted { (link : LinkFields) (past : List LinkEntry) (rrp : ℕ) →
            LinkStandsFor link self.old past → outcome_passed result ≡ false →
            pointer_landed link toward past
            (link_landed_with result (landing_end toward self.new).receiver.packet) ≡ Some rrp →
            Acknowledges link (other toward) past
            (after_call link past (LinkCall.land toward mask.now)) rrp }
        ensures idle { outcome_none result ≡ true → self.new ≡ self.old }
        ensures going { self.new.going ≡ not (outcome_passed result) }
        ensures ordered { is_out_of_order
            (link_landed_with result (landing_end toward self.new).receiver.packet) ≡ false }
        ensures a_untouched { outcome_passed result ≡ true → IsUntouched self.old.a self.new.a }
        ensures b_untouched { outcome_passed result ≡ true → IsUntouched self.old.b self.new.b }
    {
        match toward {
            Toward::Forth => {
                let landing = cross(&mut self.a, &mut self.b, mask);
                self.going = !has_passed(&landing);
                self.forth = without_landed(self.forth, &landing, self.b.latest());
                landing
            }
            Toward::Back => {
                let landing = cross(&mut self.b, &mut self.a, mask);
                self.going = !has_passed(&landing);
                self.back = without_landed(self.back, &landing, self.a.latest());
                landing
            }
        }
    }

    /// Lands the front of the line of a direction, with the bits of the mask inverted. `Passed`
    /// exactly where a check succeeds over flits one of which was changed: nothing was accepted,
    /// credited or acknowledged then, and the link is of no more use. No packet lands out of order,
    /// and no return pointer that is counted is stray.
    pub fn land(&mut self, toward: Toward, mask: Flit) -> LinkLanded
        requires { self.old.going ≡ true }
        ensures answer { (link : LinkFields) (past : List LinkEntry) →
            LinkStandsFor link self.old past → result ≡ land_answer link toward past mask }
        ensures stands { (link : LinkFields) (past : List LinkEntry) →
            LinkStandsFor link self.old past → landing_passed result ≡ false →
            LinkStandsFor link self.new (after_call link past (LinkCall.land toward mask)) }
        ensures list { (link : LinkFields) (past : List LinkEntry) →
            LinkStandsFor link self.old past → landing_passed result ≡ false →
            handed_list link toward past ≡ map listed_packet (removed result)
            ++ handed_list link toward (after_call link past (LinkCall.land toward mask)) }
        ensures other { KeepsList self.old (other toward) (LinkCall.land toward mask) }
        ensures counted { (link : LinkFields) (past : List LinkEntry) (rrp : ℕ) →
            LinkStandsFor link self.old past → landing_passed result ≡ false →
            pointer_landed link toward past result ≡ Some rrp →
            Acknowledges link (other toward) past
            (after_call link past (LinkCall.land toward mask)) rrp }
        ensures idle { lands_none result ≡ true → self.new ≡ self.old }
        ensures going { self.new.going ≡ not (landing_passed result) }
        ensures ordered { is_out_of_order result ≡ false }
        ensures a_untouched { landing_passed result ≡ true → IsUntouched self.old.a self.new.a }
        ensures b_untouched { landing_passed result ≡ true → IsUntouched self.old.b self.new.b }
    {
        let landing = self.land_in_place(toward, &mask);
        link_landed_with(&landing, self.latest(toward))
    }

    /// The flits that the receiver of a direction has gathered of a packet that isn't whole, the
    /// first one first; `None` exactly where it isn't Good or has gathered none.
    pub fn through_view(&self, toward: Toward) -> Option<&[Flit]>
        ensures { (link : LinkFields) (past : List LinkEntry) →
            LinkStandsFor link self.now past → option_map (λ flits. flits.now) result
            ≡ flits_seen (mode (receiver_entries toward past))
            (pending (receiver_entries toward past)) }
    {
        match toward {
            Toward::Forth => self.b.through_view(),
            Toward::Back => self.a.through_view(),
        }
    }

    /// The length of the list of a direction: the packets that were handed to it, or that began to
    /// be forwarded in it, and that are not accepted.
    pub fn handed(&self, toward: Toward) -> u32
        ensures { (link : LinkFields) (past : List LinkEntry) →
            LinkStandsFor link self.now past → result ≡ length (handed_list link toward past) }
    {
        match toward {
            Toward::Forth => self.forth,
            Toward::Back => self.back,
        }
    }

    /// The number of packets that the link holds: those in the lists of both directions, and those
    /// in both buffers.
    pub fn held(&self) -> u64
        ensures { result ≡ held_on self.now }
    {
        let listed = u64::from(self.forth) + u64::from(self.back);
        listed + u64::from(self.a.stored()) + u64::from(self.b.stored())
    }

    /// The place, from 0, of the next flit of a packet that is forwarded and unfinished in a
    /// direction; `None` exactly where there is none.
    pub fn through_at(&self, toward: Toward) -> Option<u8>
        ensures value { result
            ≡ through_place (sending_end toward self.now).sender.under_way }
        ensures by_list { (link : LinkFields) (past : List LinkEntry) →
            LinkStandsFor link self.now past → result
            ≡ through_at link.profile (sender_entries link toward past) }
    {
        match toward {
            Toward::Forth => self.a.through_at(),
            Toward::Back => self.b.through_at(),
        }
    }

    /// The tokens of a direction. Their sum is the number that an end advertises, of every link
    /// that is going, and none of them is cut off at zero.
    pub fn tokens(&self, toward: Toward) -> TokenRow
        ensures value { result
            ≡ row_held (sending_end toward self.now) (landing_end toward self.now) }
        ensures by_list { (link : LinkFields) (past : List LinkEntry) →
            LinkStandsFor link self.now past → result ≡ tokens link toward past }
        ensures sum { (link : LinkFields) (past : List LinkEntry) →
            LinkStandsFor link self.now past →
            result.held + result.transit + result.used + result.due + result.returning
            ≡ link.tokens }
        ensures balance { (link : LinkFields) (past : List LinkEntry) →
            LinkStandsFor link self.now past → TokensBalance link toward past result }
        ensures going { self.now.going ≡ true →
            result.held + result.transit + result.used + result.due + result.returning
            ≡ (sending_end toward self.now).setup.tokens }
    {
        match toward {
            Toward::Forth => token_row(&self.a, &self.b),
            Toward::Back => token_row(&self.b, &self.a),
        }
    }

    /// Whether a packet of so many flits may begin to be forwarded in a direction: its output queue
    /// is empty, its sender is free, and held tokens and retry room are at least that many.
    pub fn through_ready(&self, toward: Toward, flits: u8) -> bool
        ensures value { self.now.going ≡ true →
            result ≡ is_ready (sending_end toward self.now) flits }
        ensures by_list { (link : LinkFields) (past : List LinkEntry) →
            LinkStandsFor link self.now past →
            result ≡ may_pass_on (view_in link toward past Waiting) flits }
    {
        match toward {
            Toward::Forth => self.a.through_ready(flits),
            Toward::Back => self.b.through_ready(flits),
        }
    }

    /// Begins to forward a packet of so many flits, at least 2, before it has come whole.
    /// The direction is ready for it (`through_ready`), and its head names that length.
    pub fn begin_through(&mut self, toward: Toward, head: Flit, flits: u8)
        requires going { self.old.going ≡ true }
        requires ready { is_ready (sending_end toward self.old) flits ≡ true }
        requires named { names_flits flits (head_in head) ≡ true }
        ensures stands { (link : LinkFields) (past : List LinkEntry) →
            LinkStandsFor link self.old past → LinkStandsFor link self.new
            (after_call link past (LinkCall.begin toward head flits)) }
        ensures list { (link : LinkFields) (past : List LinkEntry) →
            LinkStandsFor link self.old past →
            handed_list link toward (after_call link past (LinkCall.begin toward head flits))
            ≡ handed_list link toward past ++ listed_open head flits ∷ [] }
        ensures other { (link : LinkFields) (past : List LinkEntry) →
            LinkStandsFor link self.old past → handed_list link (other toward)
            (after_call link past (LinkCall.begin toward head flits))
            ≡ handed_list link (other toward) past }
        ensures going { self.new.going ≡ true }
    {
        flit_is_bytes(&head);
        match toward {
            Toward::Forth => {
                self.a.begin_through(head, flits);
                self.forth += 1;
            }
            Toward::Back => {
                self.b.begin_through(head, flits);
                self.back += 1;
            }
        }
    }

    /// Whether no output queue and no buffer holds a packet, and no tokens are with packets under
    /// way.
    pub fn is_quiet(&self) -> bool
        ensures { IsTrue result ↔ (IsQuiet self.now.a × IsQuiet self.now.b) }
    {
        let a = self.a.is_quiet();
        let b = self.b.is_quiet();
        a && b
    }
}
