//! An end of a link.

ghost use Rattle.std.specs.Prelude.{◌≡◌, ◌<◌, ◌≤◌, ◌+◌, ◌&&◌, ◌==◌, IfOk, [], length};
ghost use Rattle.hmc_send.specs.declared.toward.Toward.{Toward};
ghost use Rattle.hmc_packet.specs.Packet.{flits_of};

use crate::arrival::{
    all_four, arriving, either, flits_seen, flits_stored, is_token, note, note_run, passes,
    pending_changed, store, stored_packet,
};
use circular_buffer::HeapCircularBuffer;
use hmc_codes::{Flit, LinkSetup, Memory};
use hmc_ends::{LinkSent, feed_is_bytes};
use hmc_packet::{Feed, Landed, Mode, Outcome, Packet, Reception};
use hmc_receive::{Receiver, landed_with};
use hmc_send::{Sender, Sent};
use hmc_tokens::{Account, Intake, Queue, append};
use std::alloc::Global;
use std::marker::Model;

/// An end of a link. It sends in one direction, and the other one lands at it.
#[derive(Drop)]
pub struct End<I: Intake> {
    setup: LinkSetup,
    // Of the direction in which it sends: the packets that wait, the sender, the flits that have
    // not landed, and the flits of packets that were begun and are not accepted.
    queue: Queue,
    sender: Sender,
    line: HeapCircularBuffer<Flit>,
    transit: u32,
    // Of the direction that lands here: the receiver, whether one of the flits that it has
    // gathered is changed, and the buffer with the number of its packets.
    receiver: Receiver,
    changed: bool,
    intake: I,
    stored: u32,
    account: Account,
}

impl<I: Intake> Model for End<I> {
    ghost use Rattle.hmc_ends.specs.End.{EndFields};
    ghost use Rattle.hmc_ends.specs.StandsFor.{IsEnd};
    ghost use Rattle.hmc_tokens.specs.Queue.{packets_of, size_of};

    ghost Value = { EndFields };

    ghost view = { λ e. record {
      setup = e.setup;
      queue = packets_of e.queue;
      sender = e.sender;
      line = e.line.items;
      transit = e.transit;
      receiver = e.receiver;
      changed = e.changed;
      buffer = I.packets e.intake;
      account = e.account;
    } };

    ghost invariant = { λ e. IsEnd (record {
      setup = e.setup;
      queue = packets_of e.queue;
      sender = e.sender;
      line = e.line.items;
      transit = e.transit;
      receiver = e.receiver;
      changed = e.changed;
      buffer = I.packets e.intake;
      account = e.account;
    }) (size_of e.queue) (I.size e.intake) e.line.capacity (I.cost e.intake) e.stored };
}

#[tactic(auto, using(hmc_tokens::specs::Queue::all_cost_one))]
impl<I: Intake> End<I> {
    ghost use Rattle.std.specs.Prelude.{◌++◌, ◌∷◌, ◌-◌, ℕ, None, true, false, List, drop, nat_lt, nat_le, slice_get, sum_by, option_map, ◌↔◌, IsTrue, is_some, not};
    ghost use Rattle.std.specs.Option.{ForSome};
    ghost use Rattle.hmc_codes.specs.Limits.{most_tokens};
    ghost use Rattle.hmc_codes.specs.Link.{LinkFields};
    ghost use Rattle.hmc_packet.specs.Landings.{mode, pending, ReceiverEntry, flits_in};
    ghost use Rattle.hmc_send.specs.Given.{IsTaken};
    ghost use Rattle.hmc_ends.specs.End.{after_taken, flits_seen, IsQuiet};
    ghost use Rattle.hmc_ends.specs.Answers.{link_sent, sends_none};
    ghost use Rattle.hmc_ends.specs.Parts.{EndParts, parts_of, parts_unlocked, parts_after_send, parts_through, flits_under_way, view_by};
    ghost use Rattle.hmc_codes.specs.declared.profile.Profile.{Profile};
    ghost use Rattle.hmc_packet.specs.Receptions.{landed_with};
    ghost use Rattle.hmc_receive.specs.StandsFor.{ReceiverStandsFor, latest};
    ghost use Rattle.hmc_send.specs.Choice.{choice};
    ghost use Rattle.hmc_send.specs.Entries.{SenderEntry, through_place, through_at};
    ghost use Rattle.hmc_packet.specs.declared.feed.Feed.TheVariants.{Waiting};
    ghost use Rattle.hmc_send.specs.LinkCalls.{may_pass_on};
    ghost use Rattle.hmc_send.specs.LinkLines.{passes};
    ghost use Rattle.hmc_send.specs.LinkSenders.{run_entries};
    ghost use Rattle.hmc_send.specs.LinkTokens.{tokens_credited};
    ghost use Rattle.hmc_send.specs.StandsFor.{StandsFor};
    ghost use Rattle.hmc_ends.specs.Landings.{arrived_packets, stored, noted, pending_changed, landed_unless_passed, KeepsSizes, Lands, CanLand, CanTake, landing_in, entry_landed};
    ghost use Rattle.hmc_send.specs.LinkEntries.{LinkEntry, other};
    ghost use Rattle.hmc_wire.specs.Conditions.{IsFeed};
    ghost use Rattle.hmc_wire.specs.LinkLaws.{IsKept};
    ghost use Rattle.hmc_ends.specs.StandsFor.{EndStandsFor, CanSend, CanForward};

    /// An end that did nothing, with this buffer.
    pub fn new(alloc: Global, setup: LinkSetup, intake: I) -> Result<Self, Memory>
        requires empty { I.packets intake ≡ [] }
        requires size { I.size intake ≡ setup.tokens }
        requires cost { I.cost intake ≡ flits_of }
        ensures { IfOk result (λ e. (d : Toward) →
            EndStandsFor setup e (parts_of setup d [])) }
    {
        setup.invariant();
        let queue = Queue::new(alloc, setup.output)?;
        let sender = Sender::new(alloc, setup.retry, setup.profile)?;
        let line = HeapCircularBuffer::with_capacity(alloc, usize::from(setup.line))?;
        Ok(End {
            setup,
            queue,
            sender,
            line,
            transit: 0,
            receiver: Receiver::new(setup.profile),
            changed: false,
            intake,
            stored: 0,
            account: Account::new(setup.tokens),
        })
    }

    /// Whether the output queue has room for a packet.
    pub fn has_room(&self) -> bool
        ensures { result ≡ nat_lt (length self.now.queue) self.now.setup.output }
    {
        self.queue.used() < u32::from(self.setup.output)
    }

    /// Appends a packet to the output queue.
    #[inline(always)]
    pub fn put(&mut self, packet: &Packet)
        requires room { length self.old.queue < self.old.setup.output }
        requires fit { IsTaken self.old.setup.profile packet.now }
        ensures { self.new ≡ record self.old { queue = self.old.queue ++ packet.now ∷ [] } }
    {
        self.queue.put(packet);
    }

    /// Appends a packet to the output queue.
    pub fn hand(&mut self, packet: Packet)
        requires room { length self.old.queue < self.old.setup.output }
        requires fit { IsTaken self.old.setup.profile packet }
        ensures { self.new ≡ record self.old { queue = self.old.queue ++ packet ∷ [] } }
    {
        self.put(&packet);
    }

    /// The front of the buffer, lent; `None` exactly where it is empty.
    pub fn front_ref(&self) -> Option<&Packet>
        ensures { option_map (λ packet. packet.now) result ≡ slice_get self.now.buffer 0 }
    {
        self.intake.front_ref()
    }

    /// The front of the buffer.
    pub fn front(&self) -> Option<Packet>
        ensures { result ≡ slice_get self.now.buffer 0 }
    {
        self.front_ref().copied()
    }

    /// Removes the front of the buffer, if there is one: its tokens are due.
    pub fn drop_front(&mut self)
        requires { ForSome (slice_get self.old.buffer 0)
            (λ packet. self.old.account.due + flits_of packet ≤ most_tokens) }
        ensures { self.new ≡ after_taken (slice_get self.old.buffer 0) self.old }
    {
        if let Some(packet) = self.intake.front_ref() {
            let flits = packet.flits();
            self.intake.drop_front();
            self.stored = self.stored.saturating_sub(1);
            self.account.owe(flits);
        }
    }

    /// Takes the front of the buffer: its tokens are due.
    pub fn take(&mut self) -> Option<Packet>
        requires { ForSome (slice_get self.old.buffer 0)
            (λ packet. self.old.account.due + flits_of packet ≤ most_tokens) }
        ensures front { result ≡ slice_get self.old.buffer 0 }
        ensures left { self.new ≡ after_taken result self.old }
    {
        let front = self.front();
        self.drop_front();
        front
    }

    /// What the receiver waits for.
    pub fn mode(&self) -> Mode
        ensures { (link : LinkFields) (p : EndParts) → EndStandsFor link self.now p →
            result ≡ mode p.received }
    {
        self.receiver.view().mode
    }

    /// The framing of what lands here was lost.
    pub fn unlock(&mut self)
        ensures { (link : LinkFields) (p : EndParts) → EndStandsFor link self.old p →
            EndStandsFor link self.new (parts_unlocked p) }
    {
        self.receiver.unlock();
        self.changed = false;
    }

    /// The number of packets in the buffer.
    pub fn stored(&self) -> u32
        ensures { result ≡ length self.now.buffer }
    {
        self.stored
    }

    /// Whether the buffer holds a packet.
    pub fn has_arrived(&self) -> bool
        ensures { result ≡ is_some (slice_get self.now.buffer 0) }
    {
        self.used() > 0
    }

    // Whether the buffer holds no packet.
    fn has_empty_buffer(&self) -> bool
        ensures { is_some (slice_get self.now.buffer 0) ≡ not result }
    {
        !self.has_arrived()
    }

    /// Whether the output queue and the buffer hold no packet, and no tokens are with packets under
    /// way.
    pub fn is_quiet(&self) -> bool
        ensures { IsTrue result ↔ IsQuiet self.now }
    {
        let queue = self.queue.is_empty();
        let buffer = self.has_empty_buffer();
        are_quiet(queue, self.transit, buffer)
    }

    // Whether the line holds as many flits as it can.
    fn is_full(&self) -> bool
        ensures { result ≡ nat_le self.now.setup.line (length self.now.line) }
    {
        usize::from(self.setup.line) <= self.line.len()
    }

    // Sends the next flit, for which the line has room.
    #[inline(always)]
    fn send_next(&mut self, feed: Feed) -> LinkSent
        requires can { CanSend self.old feed }
        requires feed { IsFeed feed }
        requires room { length self.old.line < self.old.setup.line }
        ensures answer { (link : LinkFields) (p : EndParts) → EndStandsFor link self.old p →
            result ≡ link_sent false (choice link.profile (view_by link p feed)) }
        ensures stands { (link : LinkFields) (d : Toward) (past : List LinkEntry) →
            IsKept link past → EndStandsFor link self.old (parts_of link d past) →
            EndStandsFor link self.new
            (parts_after_send link feed result (parts_of link d past)) }
        ensures idle { sends_none result ≡ true → self.new ≡ self.old }
    {
        let own = self.receiver.view();
        let before = self.account.held;
        match self
            .sender
            .send(own, &mut self.queue, &mut self.account, feed)
        {
            Sent::Starved => LinkSent::Starved,
            Sent::Out { flit, what } => {
                self.transit += before - self.account.held;
                append(&mut self.line, flit);
                LinkSent::Out { flit, what }
            }
        }
    }

    /// Sends the next flit, if the line has room.
    #[inline(always)]
    pub fn send(&mut self, feed: Feed) -> LinkSent
        requires { CanSend self.old feed }
        ensures answer { (link : LinkFields) (p : EndParts) → EndStandsFor link self.old p →
            result ≡ link_sent (nat_le link.line (length (flits_under_way p)))
            (choice link.profile (view_by link p feed)) }
        ensures stands { (link : LinkFields) (d : Toward) (past : List LinkEntry) →
            IsKept link past → EndStandsFor link self.old (parts_of link d past) →
            EndStandsFor link self.new
            (parts_after_send link feed result (parts_of link d past)) }
        ensures idle { sends_none result ≡ true → self.new ≡ self.old }
    {
        feed_is_bytes(&feed);
        if self.is_full() {
            return LinkSent::Full;
        }
        self.send_next(feed)
    }

    /// Takes the front of the line, if there is one.
    pub fn take_flit(&mut self) -> Option<Flit>
        ensures front { result ≡ slice_get self.old.line 0 }
        ensures left { self.new ≡ record self.old { line = drop 1 self.old.line } }
    {
        self.line.pop_front()
    }

    /// So many flits of a request or a response that was sent from here were accepted at the other
    /// end.
    pub fn leave_transit(&mut self, flits: u32)
        requires { flits ≤ self.old.transit }
        ensures { self.new ≡ record self.old { transit = self.old.transit - flits } }
    {
        self.transit -= flits;
    }

    /// A packet that was sent from here was accepted at the other end.
    pub fn arrive(&mut self, landed: &Landed)
        requires { flits_in (stored landed.now) ≤ self.old.transit }
        ensures { self.new ≡ record self.old {
          transit = self.old.transit - flits_in (stored landed.now);
        } }
    {
        self.leave_transit(flits_stored(landed));
    }

    /// The packet accepted last, poisoned or not; a NULL if none was.
    pub fn latest(&self) -> &Packet
        ensures value { result.now ≡ self.now.receiver.packet }
        ensures by_list { (link : LinkFields) (p : EndParts) → EndStandsFor link self.now p →
            result.now ≡ latest link.profile p.received }
    {
        self.receiver.packet()
    }

    /// The flits of the request or response that the latest landing accepted, which had this
    /// outcome; 0 where it accepted none.
    #[inline(always)]
    pub fn arrived_flits(&self, outcome: Outcome) -> u32
        ensures { result ≡ flits_in (stored (landed_with outcome self.now.receiver.packet)) }
    {
        match stored_packet(outcome, self.receiver.packet()) {
            Some(packet) => u32::from(packet.flits()),
            None => 0,
        }
    }

    // Stores the packet that a landing with this outcome accepted, if it did.
    #[inline(always)]
    fn store(&mut self, outcome: Outcome)
        requires { CanTake outcome self.old }
        ensures { self.new ≡ record self.old {
          buffer = self.old.buffer
              ++ stored (landed_with outcome self.old.receiver.packet);
          account = record self.old.account {
            held = self.old.account.held
                + tokens_credited (arrived_packets
                (landed_with outcome self.old.receiver.packet));
          };
        } }
    {
        if let Some(packet) = arriving(outcome, self.receiver.packet()) {
            store(&mut self.intake, &mut self.account, packet);
            if is_token(packet) {
                self.stored += 1;
            }
        }
    }

    // What a landing through which no change passed leaves at this end.
    #[inline(always)]
    fn take_landing(&mut self, reception: Reception, changed: bool)
        requires { CanTake reception.outcome self.old }
        ensures left { (past : List SenderEntry) → StandsFor self.old.sender past →
            StandsFor self.new.sender (run_entries reception.outcome
            ++ noted self.old.sender.retry.profile reception.rrp past) }
        ensures sizes { KeepsSizes self.old.sender self.new.sender }
        ensures rest { self.new ≡ record self.old {
          sender = self.new.sender;
          changed = pending_changed reception.outcome changed;
          buffer = self.old.buffer
              ++ stored (landed_with reception.outcome self.old.receiver.packet);
          account = record self.old.account {
            held = self.old.account.held
                + tokens_credited (arrived_packets
                (landed_with reception.outcome self.old.receiver.packet));
          };
        } }
    {
        self.store(reception.outcome);
        note(&mut self.sender, reception.rrp);
        note_run(&mut self.sender, reception.outcome);
        self.changed = pending_changed(reception.outcome, changed);
    }

    /// A flit lands here, changed or not. `None` exactly where a change passes: nothing is then
    /// accepted, credited or acknowledged. Where a packet is accepted, [`End::latest`] lends it.
    #[inline(always)]
    pub fn land_in_place(&mut self, flit: &Flit, changed: bool) -> Option<Outcome>
        requires { CanLand flit.now changed self.old }
        ensures answer { (link : LinkFields) (d : Toward) (past : List LinkEntry)
            (mask : List ℕ) → Lands link d past mask flit.now changed self.old →
            option_map (λ outcome. landed_with outcome self.new.receiver.packet) result
            ≡ landed_unless_passed (passes link.profile (other d) past mask flit.now)
            (landing_in link (other d) past flit.now) }
        ensures stands { (link : LinkFields) (d : Toward) (past : List LinkEntry)
            (mask : List ℕ) → Lands link d past mask flit.now changed self.old →
            passes link.profile (other d) past mask flit.now ≡ false →
            EndStandsFor link self.new
            (parts_of link d (entry_landed link (other d) past mask flit.now ∷ past)) }
        ensures nothing { result ≡ None →
            self.new ≡ record self.old { receiver = self.new.receiver } }
    {
        let reception = self.receiver.receive(flit);
        let changed = either(self.changed, changed);
        if passes(reception.checked, changed) {
            return None;
        }
        self.take_landing(reception, changed);
        Some(reception.outcome)
    }

    /// A flit lands here, as in [`End::land_in_place`]; the answer has the packet that is accepted.
    pub fn land(&mut self, flit: &Flit, changed: bool) -> Option<Landed>
        requires { CanLand flit.now changed self.old }
        ensures answer { (link : LinkFields) (d : Toward) (past : List LinkEntry)
            (mask : List ℕ) → Lands link d past mask flit.now changed self.old → result
            ≡ landed_unless_passed (passes link.profile (other d) past mask flit.now)
            (landing_in link (other d) past flit.now) }
        ensures stands { (link : LinkFields) (d : Toward) (past : List LinkEntry)
            (mask : List ℕ) → Lands link d past mask flit.now changed self.old →
            passes link.profile (other d) past mask flit.now ≡ false →
            EndStandsFor link self.new
            (parts_of link d (entry_landed link (other d) past mask flit.now ∷ past)) }
        ensures nothing { result ≡ None →
            self.new ≡ record self.old { receiver = self.new.receiver } }
    {
        match self.land_in_place(flit, changed) {
            None => None,
            Some(outcome) => Some(landed_with(outcome, self.latest())),
        }
    }

    /// The flits of a packet that isn't whole, which the receiver has gathered.
    pub fn through_view(&self) -> Option<&[Flit]>
        ensures { (link : LinkFields) (p : EndParts) → EndStandsFor link self.now p →
            option_map (λ flits. flits.now) result
            ≡ flits_seen (mode p.received) (pending p.received) }
    {
        flits_seen(self.receiver.view().mode, self.receiver.gathered())
    }

    /// The place of the next flit of a packet that is forwarded.
    pub fn through_at(&self) -> Option<u8>
        ensures value { result ≡ through_place self.now.sender.under_way }
        ensures by_list { (link : LinkFields) (p : EndParts) → EndStandsFor link self.now p →
            result ≡ through_at link.profile p.sender }
    {
        self.sender.through_at()
    }

    /// The tokens that an end advertises.
    pub fn advertised(&self) -> u16
        ensures { result ≡ self.now.setup.tokens }
    {
        self.setup.tokens
    }

    /// Tokens held for sending.
    pub fn held(&self) -> u32
        ensures { result ≡ self.now.account.held }
    {
        self.account.held
    }

    /// Flits of packets that were begun and are not accepted.
    pub fn transit(&self) -> u32
        ensures { result ≡ self.now.transit }
    {
        self.transit
    }

    /// Flits of packets in the buffer.
    pub fn used(&self) -> u32
        ensures { result ≡ flits_in self.now.buffer }
    {
        self.intake.used()
    }

    /// Tokens due for return.
    pub fn due(&self) -> u32
        ensures { result ≡ self.now.account.due }
    {
        self.account.due
    }

    /// Whether the end may begin to forward a packet of so many flits: nothing waits, the sender is
    /// free, and tokens and retry room suffice.
    pub fn through_ready(&self, flits: u8) -> bool
        ensures { (link : LinkFields) (p : EndParts) → EndStandsFor link self.now p →
            result ≡ may_pass_on (view_by link p Waiting) flits }
    {
        let empty = self.queue.front_ref().is_none();
        let free = self.sender.free(self.receiver.view());
        let held = u32::from(flits) <= self.account.held;
        let room = u16::from(flits) <= self.sender.room();
        all_four(empty, free, held, room)
    }

    /// Begins to forward a packet.
    pub fn begin_through(&mut self, head: Flit, flits: u8)
        requires { CanForward self.old head flits }
        ensures { (link : LinkFields) (d : Toward) (past : List LinkEntry) →
            IsKept link past → EndStandsFor link self.old (parts_of link d past) →
            EndStandsFor link self.new (parts_through link head flits (parts_of link d past)) }
    {
        self.sender.begin_through(head, flits, &mut self.account);
        self.transit += u32::from(flits);
    }
}

// Whether the queue and the buffer are empty, and no flit is in transit.
fn are_quiet(queue: bool, transit: u32, buffer: bool) -> bool
    ensures { result ≡ ((queue && (transit == 0)) && buffer) }
{
    queue && transit == 0 && buffer
}
