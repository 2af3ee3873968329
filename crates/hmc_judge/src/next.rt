//! What a walk can do next.

ghost use Rattle.std.specs.Prelude.{◌≡◌, ◌<◌, ◌&&◌, ◌||◌, Some, None, length, MatchOption, IfSome};
ghost use Rattle.std.specs.List.{position, remove};
ghost use Rattle.hmc_search.specs.Alone.{alone};
ghost use Rattle.hmc_search.specs.Kept.{shares_tag};
ghost use Rattle.hmc_search.specs.Point.{in_lane};
ghost use Rattle.hmc_journal.specs.Filters.{same_unit};
ghost use Rattle.hmc_journal.specs.Setup.{unit_in};
ghost use Rattle.hmc_judge.specs.Walk.{is_before, left_ready, left_waiting, same_waiting};

use crate::same::same_waiting;
use hmc_codes::{Answer, Shape, Unit};
use hmc_search::{
    Ready, Waiting, in_lane, place_at_hand, same_answer, same_unit, shares_tag, unit_in,
};

// Whether another request is of this lane or has this tag.
fn is_in_the_way(shapes: &[Shape], unit: Unit, next: &Waiting, other: &Waiting) -> bool
    ensures { result ≡ (in_lane (alone shapes.now) next.now.host unit other.now
        || shares_tag next.now.host next.now.tag other.now) }
{
    in_lane(shapes, next.host, unit, other) || shares_tag(next.host, next.tag, other)
}

// The place of the first request that is of this one's lane or of its tag.
fn first_place(shapes: &[Shape], next: &Waiting, waiting: &[Waiting]) -> Option<usize>
    ensures { result ≡ position (is_before (alone shapes.now) next.now) waiting.now }
{
    let unit = unit_in(shapes, &next.request);
    waiting
        .iter()
        .position(|other| is_in_the_way(shapes, unit, next, other))
}

// Whether a request is this one, and its unit this one.
fn is_this(shapes: &[Shape], unit: Unit, next: &Waiting, first: &Waiting) -> bool
    ensures { result ≡ (same_waiting next.now first.now
        && same_unit (unit_in (alone shapes.now) next.now.request) unit) }
{
    same_waiting(next, first) && same_unit(unit_in(shapes, &next.request), unit)
}

/// The place of a request that a unit can execute next, or `None` if it can't.
pub fn place_to_execute(
    shapes: &[Shape],
    unit: Unit,
    next: &Waiting,
    waiting: &[Waiting],
) -> Option<usize>
    ensures inside { IfSome result (λ at. at < length waiting.now) }
    ensures value { MatchOption result
        (left_waiting (alone shapes.now) unit next.now waiting.now ≡ None)
        (λ at. left_waiting (alone shapes.now) unit next.now waiting.now
        ≡ Some (remove waiting.now at)) }
{
    match first_place(shapes, next, waiting) {
        None => None,
        Some(at) => {
            if is_this(shapes, unit, next, &waiting[at]) {
                Some(at)
            } else {
                None
            }
        }
    }
}

/// The place of an answer that a host can take next, or `None` if it can't.
pub fn place_to_take(host: u8, tag: u16, answer: &Answer, ready: &[Ready]) -> Option<usize>
    ensures inside { IfSome result (λ at. at < length ready.now) }
    ensures value { MatchOption result (left_ready host tag answer.now ready.now ≡ None)
        (λ at. left_ready host tag answer.now ready.now ≡ Some (remove ready.now at)) }
{
    match place_at_hand(host, tag, ready) {
        None => None,
        Some(at) => {
            if same_answer(&ready[at].answer, answer) {
                Some(at)
            } else {
                None
            }
        }
    }
}
