//! Which requests can be executed next.

ghost use Rattle.std.specs.Prelude.{◌≡◌};
ghost use Rattle.hmc_journal.specs.Filters.{same_tag};
ghost use Rattle.hmc_search.specs.Point.{ready_under, under_tag};
ghost use Rattle.hmc_search.specs.Alone.{alone};
ghost use Rattle.hmc_search.specs.Kept.{is_free, same_answer, same_flag, shares_tag};
ghost use Rattle.hmc_search.specs.Point.{in_lane};
ghost use Rattle.hmc_journal.specs.Filters.{same_unit};
ghost use Rattle.hmc_journal.specs.Setup.{shape_of, unit_in};

use crate::{Ready, Waiting};
use hmc_codes::{Answer, Request, Shape, Unit};
use hmc_serial::unit_of;

// Whether a request has this tag.
fn has_tag(tag: Option<u16>, wanted: u16) -> bool
    ensures { result ≡ same_tag tag wanted }
{
    match tag {
        None => false,
        Some(tag) => tag == wanted,
    }
}

/// Whether a request has this tag of this host.
pub fn is_under(host: u8, tag: u16, waiting: &Waiting) -> bool
    ensures { result ≡ under_tag host tag waiting.now }
{
    waiting.host == host && has_tag(waiting.tag, tag)
}

/// Whether an answer has this tag of this host.
pub fn is_ready_under(host: u8, tag: u16, ready: &Ready) -> bool
    ensures { result ≡ ready_under host tag ready.now }
{
    ready.host == host && has_tag(ready.tag, tag)
}

/// Whether another request has this request's tag, where it has one.
pub fn shares_tag(host: u8, tag: Option<u16>, other: &Waiting) -> bool
    ensures { result ≡ shares_tag host tag other.now }
{
    match tag {
        None => false,
        Some(tag) => is_under(host, tag, other),
    }
}

// Whether two flags are the same.
fn same_flag(a: bool, b: bool) -> bool
    ensures { result ≡ same_flag a b }
{
    if a { b } else { !b }
}

/// Whether two answers are the same.
pub fn same_answer(a: &Answer, b: &Answer) -> bool
    ensures { result ≡ same_answer a.now b.now }
{
    match (a, b) {
        (Answer::Silent, Answer::Silent) => true,
        (Answer::Done { flag: a }, Answer::Done { flag: b }) => same_flag(*a, *b),
        (
            Answer::Read {
                flag: a,
                payload: xs,
            },
            Answer::Read {
                flag: b,
                payload: ys,
            },
        ) => { same_flag(*a, *b) && xs.as_slice() == ys.as_slice() }
        (Answer::Register { value: a }, Answer::Register { value: b }) => *a == *b,
        (Answer::Stored, Answer::Stored) => true,
        (Answer::Refused { errstat: a }, Answer::Refused { errstat: b }) => *a == *b,
        _ => false,
    }
}

/// The unit that executes a request. Where its cube isn't there, that of a cube with one bank.
pub fn unit_in(shapes: &[Shape], request: &Request) -> Unit
    ensures { result ≡ unit_in (alone shapes.now) request.now }
{
    if usize::from(request.cube) < shapes.len() {
        return unit_of(shapes[usize::from(request.cube)], request);
    }
    let none = Shape {
        vault_bits: 0,
        bank_bits: 0,
        rows: 1,
        block: 256,
    };
    unit_of(none, request)
}

/// Whether two units are the same bank, or the registers of the same cube.
pub fn same_unit(a: Unit, b: Unit) -> bool
    ensures { result ≡ same_unit a b }
{
    match (a, b) {
        (
            Unit::Bank {
                cube: a,
                vault: v,
                bank: n,
            },
            Unit::Bank {
                cube: b,
                vault: w,
                bank: m,
            },
        ) => { a == b && (v == w && n == m) }
        (Unit::Registers { cube: a }, Unit::Registers { cube: b }) => a == b,
        _ => false,
    }
}

/// Whether a request waits in the lane of a host and a unit.
pub fn in_lane(shapes: &[Shape], host: u8, unit: Unit, waiting: &Waiting) -> bool
    ensures { result ≡ in_lane (alone shapes.now) host unit waiting.now }
{
    waiting.host == host && same_unit(unit_in(shapes, &waiting.request), unit)
}

/// Whether none of these is of a request's lane or of its tag.
#[tactic(auto, unfolding(crate::specs::Kept::is_free))]
pub fn is_free(shapes: &[Shape], next: &Waiting, before: &[Waiting]) -> bool
    ensures { result ≡ is_free (alone shapes.now) next.now before.now }
{
    let unit = unit_in(shapes, &next.request);
    match before.split_first() {
        None => true,
        Some((other, more)) => {
            !in_lane(shapes, next.host, unit, other)
                && (!shares_tag(next.host, next.tag, other) && is_free(shapes, next, more))
        }
    }
}
