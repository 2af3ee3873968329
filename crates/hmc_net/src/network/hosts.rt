//! The steps of hosts.

ghost use Rattle.std.specs.Prelude.{◌≡◌, ◌<◌, ◌/◌, ℕ, List, Some, false};
ghost use Rattle.hmc_case.specs.declared.setup.LinkRow.{LinkRow};
ghost use Rattle.hmc_codes.specs.declared.place.Place.TheVariants as places;
ghost use Rattle.hmc_host.specs.Settle.{IsAwaited, after_settle, settle_says};
ghost use Rattle.hmc_journal.specs.Answers.{gave_entry, took_entry};
ghost use Rattle.hmc_entries.specs.declared.entry.Entry.{Entry};
ghost use Rattle.hmc_entries.specs.Event.{cause_of};
ghost use Rattle.hmc_journal.specs.Setup.{hosts_in, direction_from};
ghost use Rattle.hmc_send.specs.LinkEntries.{LinkEntry};
ghost use Rattle.hmc_net.specs.Apply.{DoesStep};
ghost use Rattle.hmc_net.specs.Gives.{IsGiven, IsRequested, entries_given};
ghost use Rattle.hmc_kept.specs.Hosts.{cause_by};
ghost use Rattle.hmc_links.specs.LinkList.{LinksStandFor, IsDirection, IsRoom};
ghost use Rattle.hmc_net.specs.NetState.{net_of};
ghost use Rattle.hmc_net.specs.Sees.{IsReady};
ghost use Rattle.hmc_net.specs.Went.{went_of};

use crate::went::idle;
use crate::{Network, Went};
use hmc_codes::Answer;
use hmc_entries::{Cause, IdleStep, LastEntry};
use hmc_host::{Given, Hindrance, Host, Settled};
use hmc_links::LinkList;
use hmc_packet::Packet;
use hmc_schedule::Step;
use hmc_units::Workbench;

impl<B: Workbench> Network<B> {
    // The host gives its next request to its link.
    #[inline(always)]
    pub(crate) fn give(&mut self, host: u8) -> Went
        requires there { host < hosts_in self.old.topology }
        requires ready { IsReady (net_of B.slots self.old) }
        ensures does { DoesStep (net_of B.slots self.old) (net_of B.slots self.new)
            (Step.Give host) }
        ensures went { result ≡ went_of self.new.last }
    {
        let direction = self.wiring.from_host(host);
        let room = self.links.room(direction);
        if let Some(hindrance) = self.hosts[usize::from(host)].hindrance(room) {
            return idle(&mut self.last, IdleStep::Give(host), cause_of(hindrance));
        }
        self.give_next(host, direction, room)
    }

    // The same. Where nothing is given, no packet is to be moved.
    #[inline(never)]
    fn give_next(&mut self, host: u8, direction: u8, room: bool) -> Went
        requires there { host < hosts_in self.old.topology }
        requires ready { IsReady (net_of B.slots self.old) }
        requires from { direction_from self.old.topology (places.Host host) ≡ Some direction }
        requires room { IsRoom self.old.links direction room }
        ensures does { DoesStep (net_of B.slots self.old) (net_of B.slots self.new)
            (Step.Give host) }
        ensures went { result ≡ went_of self.new.last }
    {
        let giver = &mut self.hosts[usize::from(host)];
        let given = giver.give(room);
        hand_given(&mut self.links, direction, &given);
        note_given(&mut self.last, host, &given)
    }

    // The host takes the answer of the packet that came first, or drops that.
    #[inline(always)]
    pub(crate) fn take(&mut self, host: u8) -> Went
        requires there { host < hosts_in self.old.topology }
        requires ready { IsReady (net_of B.slots self.old) }
        ensures does { DoesStep (net_of B.slots self.old) (net_of B.slots self.new)
            (Step.Take host) }
        ensures went { result ≡ went_of self.new.last }
    {
        let direction = self.wiring.to_host(host);
        let Some(front) = self.links.front_ref(direction) else {
            return idle(&mut self.last, IdleStep::Take(host), Cause::Empty);
        };
        let taker = &mut self.hosts[usize::from(host)];
        let went = settle_front(taker, &mut self.last, host, front);
        self.links.take(direction);
        went
    }
}

// The host settles a packet that came, and the last entry becomes that of the take.
#[inline(never)]
fn settle_front(taker: &mut Host, last: &mut LastEntry, host: u8, front: &Packet) -> Went
    requires { front.now.poisoned ≡ false → IsAwaited taker.old front.now }
    ensures leaves { taker.new ≡ after_settle (settle_says front.now) taker.old }
    ensures entry { last.new ≡ took_entry host (settle_says front.now) }
    ensures went { result ≡ went_of last.new }
{
    let settled = taker.settle(front);
    note_settled(last, host, &settled)
}

// Hands to a direction what the host gave, if it gave something.
fn hand_given(links: &mut LinkList, direction: u8, given: &Given)
    requires there { IsDirection links.old direction }
    requires fit { IsGiven links.old direction given.now }
    ensures stands { (rows : List LinkRow) (entries : ℕ → List LinkEntry) →
        LinksStandFor rows links.old entries →
        LinksStandFor rows links.new (entries_given rows direction given.now entries) }
    ensures asks { IsRequested given.now }
    ensures same { (host : ℕ) (cause : Cause) →
        cause_of (gave_entry host given.now) ≡ Some cause → links.new ≡ links.old }
{
    match given {
        Given::Gave {
            packet,
            request,
            ..
        } => {
            request.invariant();
            links.hand(direction, packet);
        }
        Given::Ended | Given::Fence | Given::Tags | Given::Full => {}
    }
}

// The cause that a host gives nothing.
fn cause_of(hindrance: Hindrance) -> Cause
    ensures { result ≡ cause_by hindrance }
{
    match hindrance {
        Hindrance::Ended => Cause::Ended,
        Hindrance::Fence => Cause::Fence,
        Hindrance::Tags => Cause::Tags,
        Hindrance::Full => Cause::Full,
    }
}

// The last entry becomes that of a give.
fn note_given(last: &mut LastEntry, host: u8, given: &Given) -> Went
    ensures entry { last.new ≡ gave_entry host given.now }
    ensures went { result ≡ went_of last.new }
{
    match given {
        Given::Ended => idle(last, IdleStep::Give(host), Cause::Ended),
        Given::Fence => idle(last, IdleStep::Give(host), Cause::Fence),
        Given::Tags => idle(last, IdleStep::Give(host), Cause::Tags),
        Given::Full => idle(last, IdleStep::Give(host), Cause::Full),
        Given::Gave {
            request,
            tag,
            poisoned,
            ..
        } => {
            last.gave(host, *tag, *poisoned, request);
            Went::Done
        }
    }
}

// The last entry becomes that of a take.
fn note_settled(last: &mut LastEntry, host: u8, settled: &Settled) -> Went
    ensures entry { last.new ≡ took_entry host settled.now }
    ensures went { result ≡ went_of last.new }
{
    match settled {
        Settled::Discarded => last.discarded(host),
        Settled::Took { tag, answer } => note_answer(last, host, *tag, answer),
    }
    Went::Done
}

// The last entry becomes that of an answer that was taken. Each kind is written by itself: the
// compiler then copies the bytes of an answer that has some, and none of another.
#[inline(always)]
fn note_answer(last: &mut LastEntry, host: u8, tag: u16, answer: &Answer)
    ensures { last.new ≡ Entry.Took host tag answer.now }
{
    match answer {
        Answer::Silent => last.took(host, tag, &Answer::Silent),
        Answer::Done { flag } => last.took(host, tag, &Answer::Done { flag: *flag }),
        Answer::Read { .. } => last.took(host, tag, answer),
        Answer::Register { value } => last.took(host, tag, &Answer::Register { value: *value }),
        Answer::Stored => last.took(host, tag, &Answer::Stored),
        Answer::Refused { errstat } => last.took(host, tag, &Answer::Refused { errstat: *errstat }),
    }
}
