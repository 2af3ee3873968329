//! The steps of links.

ghost use Rattle.std.specs.Prelude.{◌≡◌, ◌<◌, ℕ, false, List, length};
ghost use Rattle.hmc_journal.specs.Setup.{directions_in};
ghost use Rattle.hmc_case.specs.declared.setup.LinkRow.{LinkRow};
ghost use Rattle.hmc_send.specs.LinkEntries.{LinkEntry};
ghost use Rattle.hmc_net.specs.Apply.{DoesStep};
ghost use Rattle.hmc_journal.specs.Piped.{goes_on};
ghost use Rattle.hmc_links.specs.LinkList.{AreGoing, LinksStandFor, IsDirection};
ghost use Rattle.hmc_kept.specs.LinkAnswers.{landing_goes_on, after_landing, sent_by, landed_by};
ghost use Rattle.hmc_kept.specs.Called.{taken_where};
ghost use Rattle.hmc_net.specs.Links.{MayForward};
ghost use Rattle.hmc_kept.specs.Pipes.{AreGathering, IsLastOf, forwarded_at, after_flit};
ghost use Rattle.hmc_wiring.specs.Ready.{IsLandingIn};
ghost use Rattle.hmc_net.specs.NetState.{net_of};
ghost use Rattle.hmc_net.specs.Sees.{IsReady};
ghost use Rattle.hmc_net.specs.Went.{went_of};

use crate::{Network, Went};
use hmc_codes::Flit;
use hmc_entries::Cause;
use hmc_kept::{Pipes, goes_on, note_landed, note_sent};
use hmc_link::{LinkOutcome, LinkSent};
use hmc_links::LinkList;
use hmc_packet::Outcome;
use hmc_schedule::Step;
use hmc_units::Workbench;

impl<B: Workbench> Network<B> {
    // A flit is sent in a direction.
    // It stands by itself: the steps together are more than is put into the loop over them.
    #[inline(never)]
    pub(crate) fn send(&mut self, direction: u8) -> Went
        requires there { direction < directions_in self.old.topology }
        requires ready { IsReady (net_of B.slots self.old) }
        ensures does { DoesStep (net_of B.slots self.old) (net_of B.slots self.new)
            (Step.Send direction) }
        ensures went { result ≡ went_of self.new.last }
    {
        let place = self.links.through_at(direction);
        let feed = self.piped.feed(direction, place);
        let sent = self.links.send(direction, feed);
        note_sent(&mut self.last, direction, &sent);
        went_sent(&sent)
    }

    // The next flit of a direction lands under a mask.
    // It stands by itself, as a send does.
    #[inline(never)]
    pub(crate) fn land(&mut self, direction: u8, mask: &Flit) -> Went
        requires there { IsLandingIn self.old.topology direction (length mask.now) }
        requires ready { IsReady (net_of B.slots self.old) }
        ensures does { DoesStep (net_of B.slots self.old) (net_of B.slots self.new)
            (Step.Land direction mask.now) }
        ensures went { result ≡ went_of self.new.last }
    {
        let landed = self.links.land(direction, mask);
        forward_landed(&mut self.links, &mut self.piped, direction, &landed);
        note_landed(&mut self.last, direction, &landed);
        went_landed(&landed)
    }

    // The receiver of a direction loses its framing.
    #[inline(never)]
    pub(crate) fn unlock(&mut self, direction: u8) -> Went
        requires there { direction < directions_in self.old.topology }
        requires ready { IsReady (net_of B.slots self.old) }
        ensures does { DoesStep (net_of B.slots self.old) (net_of B.slots self.new)
            (Step.Unlock direction) }
        ensures went { result ≡ went_of self.new.last }
    {
        self.links.unlock(direction);
        self.piped.lose(direction);
        self.last.unlocked(direction);
        Went::Done
    }
}

// A flit that came belongs to the packet that is forwarded from the end of its direction, if one
// is.
#[inline(always)]
fn forward_landed(links: &mut LinkList, piped: &mut Pipes, direction: u8, landing: &LinkOutcome)
    requires count { direction < length piped.old.forwarded }
    requires may { MayForward links.old piped.old direction landing.now }
    ensures stands { (rows : List LinkRow) (entries : ℕ → List LinkEntry) →
        LinksStandFor rows links.old entries → LinksStandFor rows links.new
        (taken_where (landing_goes_on piped.old direction landing.now) rows direction entries) }
    ensures piped { piped.new ≡ after_landing direction landing.now piped.old }
    ensures idle { landing_goes_on piped.old direction landing.now ≡ false →
        links.new ≡ links.old }
{
    match landing {
        LinkOutcome::Came { flit, outcome } => {
            forward_came(links, piped, direction, flit, *outcome);
        }
        LinkOutcome::Empty | LinkOutcome::Passed(_) => {}
    }
}

// The same of a flit that came. An accepted packet has then gone on, and leaves its buffer.
#[inline(always)]
fn forward_came(
    links: &mut LinkList,
    piped: &mut Pipes,
    direction: u8,
    flit: &Flit,
    outcome: Outcome,
)
    requires there { IsDirection links.old direction }
    requires going { AreGoing links.old }
    requires count { direction < length piped.old.forwarded }
    requires gathering { AreGathering piped.old direction }
    requires last { IsLastOf piped.old direction outcome }
    ensures stands { (rows : List LinkRow) (entries : ℕ → List LinkEntry) →
        LinksStandFor rows links.old entries → LinksStandFor rows links.new
        (taken_where (goes_on outcome (forwarded_at piped.old direction))
        rows direction entries) }
    ensures piped { piped.new ≡ after_flit direction flit.now outcome piped.old }
    ensures idle { goes_on outcome (forwarded_at piped.old direction) ≡ false →
        links.new ≡ links.old }
{
    let goes = goes_on(outcome, piped.onto(direction));
    piped.land(direction, flit, outcome);
    take_where(links, direction, goes);
}

// Takes the front of a direction's buffer where its packet has gone on.
fn take_where(links: &mut LinkList, direction: u8, goes: bool)
    requires there { IsDirection links.old direction }
    requires going { AreGoing links.old }
    ensures stands { (rows : List LinkRow) (entries : ℕ → List LinkEntry) →
        LinksStandFor rows links.old entries →
        LinksStandFor rows links.new (taken_where goes rows direction entries) }
    ensures idle { goes ≡ false → links.new ≡ links.old }
{
    if goes {
        links.take(direction);
    }
}

// How a send went.
fn went_sent(sent: &LinkSent) -> Went
    ensures { (direction : ℕ) → result ≡ went_of (sent_by direction sent.now) }
{
    match sent {
        LinkSent::Full => Went::Idle(Cause::Full),
        LinkSent::Starved => Went::Idle(Cause::Starved),
        LinkSent::Out { .. } => Went::Done,
    }
}

// How a landing went.
fn went_landed(landing: &LinkOutcome) -> Went
    ensures { (direction : ℕ) → result ≡ went_of (landed_by direction landing.now) }
{
    match landing {
        LinkOutcome::Empty => Went::Idle(Cause::Empty),
        LinkOutcome::Passed(_) => Went::Passed,
        LinkOutcome::Came { .. } => Went::Done,
    }
}
