//! The steps of a schedule, taken off one after another.

ghost use Rattle.std.specs.Prelude.{◌≡◌, ◌<◌, ◌≤◌, ◌+◌, ◌-◌, IfNone, IfSome, Some, drop, length, slice_get, take};
ghost use Rattle.hmc_schedule.specs.StepsLeft.{IsHand, IsRepeatsAt, TakesFirst, TakesKept, next_at};
ghost use Rattle.hmc_schedule.specs.Written.{WrittenFields};

use crate::Step;
use crate::written::{NO_REPEATS, Repeats, Written};
use std::marker::Model;

/// Steps of a schedule that are at hand, since they are kept one after another.
#[derive(Clone, Copy)]
pub struct Hand {
    /// The place of the first of them among the steps that are kept.
    pub place: usize,
    /// The place after the last of them.
    pub end: usize,
    /// The place in the schedule that is after the last of them.
    pub until: u32,
    /// The steps that follow them, if they are those of the same round.
    pub later: Repeats,
}

/// None, at the begin of a schedule.
const NO_HAND: Hand = Hand {
    place: 0,
    end: 0,
    until: 0,
    later: NO_REPEATS,
};

/// The steps that are left of a schedule, in their order. Contracts see the list of them, and the
/// steps of the rounds that are kept.
#[derive(Drop)]
pub struct StepsLeft {
    written: Written,
    hand: Hand,
}

impl Model for StepsLeft {
    ghost use Rattle.std.specs.Prelude.{drop};
    ghost use Rattle.hmc_schedule.specs.StepsLeft.{IsHand, next_at};
    ghost use Rattle.hmc_schedule.specs.Written.{WrittenFields};

    ghost Value = { WrittenFields };

    ghost view = { λ l. record {
      kept = l.written.kept;
      steps = drop (next_at l.hand) l.written.steps;
    } };

    ghost invariant = { λ l. IsHand l.written l.hand };
}

// The place in the schedule of the next step.
fn next_at(hand: Hand) -> u32
    requires near { hand.place ≤ hand.end }
    requires ahead { hand.end - hand.place ≤ hand.until }
    ensures { result ≡ next_at hand }
{
    hand.until - (hand.end - hand.place) as u32
}

// How many steps there are up to the end of the round, of these that repeat from this place of the
// schedule on: none where they end before it.
#[inline(always)]
fn turn_len(at: u32, repeats: Repeats) -> u32
    ensures few { result ≤ repeats.until - at }
    ensures turn { result ≤ repeats.end - repeats.next }
    ensures whole { at + result < repeats.until → result ≡ repeats.end - repeats.next }
{
    let turn = repeats.end.saturating_sub(repeats.next);
    let rest = repeats.until.saturating_sub(at);
    if turn < rest as usize {
        return turn as u32;
    }
    rest
}

// Brings the steps that repeat to hand, up to the end of their round, where none is at hand. After
// them the first one of the round comes next.
#[inline(always)]
fn turn(hand: &mut Hand)
    requires none { hand.old.end ≤ hand.old.place }
    ensures at { next_at hand.new ≡ next_at hand.old }
    ensures hand { (written : WrittenFields) → IsHand written hand.old →
        IsHand written hand.new }
{
    let place = hand.later.next;
    let len = turn_len(hand.until, hand.later);
    hand.place = place;
    hand.end = place + len as usize;
    hand.until += len;
    hand.later.next = hand.later.from;
}

// What repeats from the place in the schedule that is after this one: after the last step of the
// round the first comes next.
fn passed(at: u32, repeats: Repeats) -> Repeats
    requires { at < repeats.until → repeats.next < repeats.end }
    ensures { (written : WrittenFields) → IsRepeatsAt written at repeats →
        IsRepeatsAt written (at + 1) result }
{
    if at >= repeats.until {
        return NO_REPEATS;
    }
    let last = repeats.next + 1 == repeats.end;
    let next = if last { repeats.from } else { repeats.next + 1 };
    Repeats {
        from: repeats.from,
        next,
        end: repeats.end,
        until: repeats.until,
    }
}

impl StepsLeft {
    /// All steps.
    pub(crate) fn of(written: Written) -> StepsLeft
        ensures { result.steps ≡ written.steps }
    {
        StepsLeft {
            written,
            hand: NO_HAND,
        }
    }

    /// The number of steps that are left.
    pub fn len(&self) -> u32
        ensures { result ≡ length self.now.steps }
    {
        self.written.len().saturating_sub(next_at(self.hand))
    }

    /// The next step, if one is left. It stays on the list.
    pub fn first(&self) -> Option<Step>
        ensures { result ≡ slice_get self.now.steps 0 }
    {
        let at = next_at(self.hand);
        if at >= self.written.len() {
            return None;
        }
        Some(self.written.step(at))
    }

    /// The kept step at this place, counted from 0.
    #[inline(always)]
    pub fn kept_step(&self, place: usize) -> &Step
        requires { place < length self.now.kept }
        ensures { slice_get self.now.kept place ≡ Some result.now }
    {
        self.written.kept_step(place)
    }

    /// Brings the steps of a round that repeats to hand, up to its end, if none is at hand.
    #[inline(always)]
    pub fn bring(&mut self)
        ensures { self.new ≡ self.old }
    {
        if self.hand.place >= self.hand.end {
            turn(&mut self.hand);
        }
    }

    /// The steps at hand: the first ones of the list. They stay on it.
    #[inline(always)]
    pub fn at_hand(&self) -> &[Step]
        ensures { take (length result.now) self.now.steps ≡ result.now }
    {
        self.written.kept_steps(self.hand.place, self.hand.end)
    }

    /// Takes so many steps off the list, or all where fewer are left.
    #[inline(always)]
    pub fn pass(&mut self, count: usize)
        ensures steps { self.new.steps ≡ drop count self.old.steps }
        ensures kept { self.new.kept ≡ self.old.kept }
    {
        if count <= self.hand.end - self.hand.place {
            self.hand.place += count;
            return;
        }
        self.pass_far(count)
    }

    // The same, of which nothing is at hand afterwards.
    #[inline(never)]
    fn pass_far(&mut self, count: usize)
        ensures steps { self.new.steps ≡ drop count self.old.steps }
        ensures kept { self.new.kept ≡ self.old.kept }
    {
        let at = next_at(self.hand);
        let left = self.written.len().saturating_sub(at);
        let more = if count < left as usize {
            count as u32
        } else {
            left
        };
        self.hand = Hand {
            place: 0,
            end: 0,
            until: at + more,
            later: NO_REPEATS,
        };
    }

    /// Takes the next step off the list, if it is at hand: one of a round without noise, which is
    /// found without a search. Returns the place where it is kept.
    #[inline(always)]
    pub fn take_kept(&mut self) -> Option<usize>
        ensures taken { IfSome result (λ place. TakesKept self.old place self.new) }
        ensures none { IfNone result (self.new ≡ self.old) }
    {
        if self.hand.place >= self.hand.end {
            turn(&mut self.hand);
            if self.hand.place >= self.hand.end {
                return None;
            }
        }
        let place = self.hand.place;
        self.hand.place = place + 1;
        Some(place)
    }

    /// Takes the next step off the list, if one is left. One that isn't at hand is found by its
    /// place.
    #[inline(always)]
    pub fn take(&mut self) -> Option<Step>
        ensures taken { TakesFirst self.old.steps result self.new.steps }
        ensures kept { self.new.kept ≡ self.old.kept }
    {
        if let Some(place) = self.take_kept() {
            return Some(*self.kept_step(place));
        }
        self.take_found()
    }

    // Takes the next step, which is found by its place, if one is left. Of those after it nothing
    // is at hand yet.
    #[inline(never)]
    fn take_found(&mut self) -> Option<Step>
        ensures taken { TakesFirst self.old.steps result self.new.steps }
        ensures kept { self.new.kept ≡ self.old.kept }
    {
        let at = next_at(self.hand);
        if at >= self.written.len() {
            return None;
        }
        let found = self.written.find(at);
        self.hand = Hand {
            place: 0,
            end: 0,
            until: at + 1,
            later: passed(at, found.repeats),
        };
        Some(found.step)
    }
}
