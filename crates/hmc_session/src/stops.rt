//! The kinds of entries at which a run of laid steps stops.

ghost use Rattle.std.specs.Prelude.{◌≡◌, false};
ghost use Rattle.hmc_net.specs.Went.{went_of};
ghost use Rattle.hmc_session.specs.Stops.{IsQuiet, event_stop, is_stop, no_stops};

use hmc_entries::{Entry, Event, LastEntry};
use hmc_net::Went;

/// Kinds of entries at which a run stops: those of the fields that are set.
#[derive(Clone, Copy, PartialEq, Eq)]
pub struct Stops {
    /// A host gave a request.
    pub gave: bool,
    /// A flit was sent.
    pub sent: bool,
    /// A flit landed.
    pub landed: bool,
    /// A packet moved on from a port's buffer.
    pub shifted: bool,
    /// A port dropped a poisoned packet.
    pub dropped: bool,
    /// A request moved to its bank.
    pub spread: bool,
    /// A unit executed a request.
    pub executed: bool,
    /// An answer was lifted.
    pub lifted: bool,
    /// A host took an answer.
    pub took: bool,
    /// A host dropped a poisoned packet.
    pub discarded: bool,
    /// A packet went through.
    pub through: bool,
    /// A receiver lost its framing.
    pub unlocked: bool,
    /// A logic unit was retired.
    pub retired: bool,
    /// A landing passed.
    pub passed: bool,
    /// A step did nothing.
    pub idle: bool,
}

/// No kind: a run stops at no entry.
pub const NO_STOPS: Stops = Stops {
    gave: false,
    sent: false,
    landed: false,
    shifted: false,
    dropped: false,
    spread: false,
    executed: false,
    lifted: false,
    took: false,
    discarded: false,
    through: false,
    unlocked: false,
    retired: false,
    passed: false,
    idle: false,
};

/// `NO_STOPS`. No entry is of its kinds.
pub fn no_stops() -> Stops
    ensures value { result ≡ no_stops }
    ensures nowhere { (entry : Entry) → is_stop result entry ≡ false }
{
    NO_STOPS
}

/// Whether no kind is chosen: then no entry is of one of the kinds.
pub fn is_quiet(stops: &Stops) -> bool
    ensures quiet { IsQuiet result stops.now }
    ensures some { result ≡ false → stops.now ≡ no_stops → ⊥ }
{
    *stops == NO_STOPS
}

// Whether the entry is of one of the kinds.
fn is_stop(stops: &Stops, entry: &Entry) -> bool
    ensures { result ≡ is_stop stops.now entry.now }
{
    match entry {
        Entry::Gave { .. } => stops.gave,
        Entry::Sent { .. } => stops.sent,
        Entry::Landed { .. } => stops.landed,
        Entry::Shifted { .. } => stops.shifted,
        Entry::Dropped { .. } => stops.dropped,
        Entry::Spread { .. } => stops.spread,
        Entry::Executed { .. } => stops.executed,
        Entry::Lifted { .. } => stops.lifted,
        Entry::Took { .. } => stops.took,
        Entry::Discarded { .. } => stops.discarded,
        Entry::Through { .. } => stops.through,
        Entry::Unlocked { .. } => stops.unlocked,
        Entry::Retired { .. } => stops.retired,
        Entry::Passed { .. } => stops.passed,
        Entry::Idle { .. } => stops.idle,
    }
}

// Whether the entry is of one of the kinds, which is looked at whole. It is out of the way, since
// an entry is large.
#[inline(never)]
fn stops_at_entry(stops: &Stops, last: &LastEntry) -> bool
    ensures { result ≡ is_stop stops.now last.now }
{
    is_stop(stops, &last.entry())
}

// Whether an entry that is counted as this one is of one of the kinds, where the count tells.
#[inline(always)]
fn event_stop(stops: &Stops, event: Event) -> Option<bool>
    ensures { result ≡ event_stop stops.now event }
{
    match event {
        Event::Gave { .. } => Some(stops.gave),
        Event::Sent { .. } => Some(stops.sent),
        Event::Landed { .. } => Some(stops.landed),
        Event::Unlocked { .. } => Some(stops.unlocked),
        Event::Took { .. } => Some(stops.took),
        Event::Executed { .. } => Some(stops.executed),
        Event::Dropped { .. } => Some(stops.dropped),
        Event::Other => None,
    }
}

// Whether the entry is of one of the kinds. Most are told without a copy of it.
#[tactic(auto, using(crate::proofs::Known::told_stop))]
#[inline(always)]
fn stops_at_event(stops: &Stops, last: &LastEntry) -> bool
    ensures { result ≡ is_stop stops.now last.now }
{
    match event_stop(stops, last.event()) {
        Some(told) => told,
        None => stops_at_entry(stops, last),
    }
}

/// Whether the entry of a step that went so is of one of the kinds. Most steps do nothing, and of
/// these the entry isn't looked at.
#[tactic(auto, using(crate::proofs::Known::idle_stop))]
#[inline(always)]
pub fn stops_after(stops: &Stops, went: Went, last: &LastEntry) -> bool
    requires { went ≡ went_of last.now }
    ensures { result ≡ is_stop stops.now last.now }
{
    if let Went::Idle(_) = went {
        return stops.idle;
    }
    stops_at_event(stops, last)
}

/// Whether the latest entry is of one of the kinds. Most steps of a schedule do nothing, so these
/// are told without a copy of the entry.
#[inline(always)]
pub fn stops_at(stops: &Stops, last: &LastEntry) -> bool
    ensures { result ≡ is_stop stops.now last.now }
{
    if let Some(_) = last.cause() {
        return stops.idle;
    }
    stops_at_event(stops, last)
}
