//! The cubes and links of a case together.

ghost use Rattle.std.specs.Prelude.{ℕ, ◌≡◌, ◌≤◌, ◌<◌, ◌==◌, nat_le, nat_lt, length, IsTrue, IfOk, OnOk};
ghost use Rattle.std.specs.List.{All, list_any, list_all};
ghost use Rattle.hmc_codes.specs.Limits.{most_hosts, most_memory};
ghost use Rattle.hmc_case.specs.Reading.{Answers, in_section};
ghost use Rattle.hmc_case.specs.declared.fault.Section.TheVariants as sections;
ghost use Rattle.hmc_codes.specs.Numbers.{upto};
ghost use Rattle.hmc_codes.specs.Places.{host_number};
ghost use Rattle.hmc_case.specs.Together.{total_capacity, in_capacity, host_at, hosts_of, host_count, are_from_zero, count_from_zero};

use crate::fault::{in_section, refuse_unless};
use crate::{CaseFault, CaseKind, CubeSetup, LinkRow, Section};
use hmc_codes::{MOST_MEMORY, Place};
use std::alloc::{AllocError, Global};

// Whether all cubes together have no more bytes than they may.
fn fit(cubes: &[CubeSetup]) -> bool
    ensures { result ≡ nat_le (total_capacity cubes.now) most_memory }
{
    let mut left = MOST_MEMORY;
    'cubes: for cube in cubes {
        let capacity = cube.shape.capacity();
        if left < capacity {
            return false;
        }
        left -= capacity;
    }
    true
}

/// All cubes together have at most `MOST_MEMORY` bytes.
pub fn in_capacity(cubes: &[CubeSetup]) -> Result<(), CaseKind>
    ensures value { result ≡ in_capacity cubes.now }
    ensures within { OnOk result (total_capacity cubes.now ≤ most_memory) }
{
    refuse_unless(fit(cubes), CaseKind::Capacity)
}

fn host_number(place: Place) -> Option<u8>
    ensures { result ≡ host_number place }
{
    match place {
        Place::Host(host) => Some(host),
        Place::Port { .. } => None,
    }
}

// The host at which a link ends, if it ends at one.
fn host_at(link: &LinkRow) -> Option<u8>
    ensures { result ≡ host_at link.now }
{
    match link.join.a {
        Place::Host(host) => Some(host),
        Place::Port { .. } => host_number(link.join.b),
    }
}

// The hosts that the links join, in the order of the links.
fn hosts_of(alloc: Global, links: &[LinkRow]) -> Result<Vec<u8>, AllocError>
    ensures { IfOk result (λ hosts. hosts.items ≡ hosts_of links.now) }
{
    links.iter().filter_map(|link| host_at(link)).collect(alloc)
}

fn are_below(numbers: &[u8], limit: usize) -> bool
    ensures { result ≡ list_all (λ number. nat_lt number limit) numbers.now }
{
    numbers.iter().all(|number| usize::from(*number) < limit)
}

fn has(numbers: &[u8], number: usize) -> bool
    ensures { result ≡ list_any (λ other. other == number) numbers.now }
{
    numbers.iter().any(|other| usize::from(*other) == number)
}

fn have_all_below(numbers: &[u8], limit: usize) -> bool
    ensures { result
        ≡ list_all (λ number. list_any (λ other. other == number) numbers.now) (upto limit) }
{
    (0..limit).all(|number| has(numbers, number))
}

// Whether the numbers are 0 to one less than their count.
fn are_from_zero(numbers: &[u8]) -> bool
    ensures value { result ≡ are_from_zero numbers.now }
    ensures exact { IsTrue result → (number : ℕ) →
        list_any (λ other. other == number) numbers.now ≡ nat_lt number (length numbers.now) }
    ensures few { IsTrue result → All (λ number. number < most_hosts) numbers.now
        → length numbers.now ≤ most_hosts }
{
    let limit = numbers.len();
    are_below(numbers, limit) && have_all_below(numbers, limit)
}

// The number of numbers: one at least, and 0 to one less than their count.
#[tactic(auto, unfolding(crate::specs::Together::count_from_zero))]
fn count_from_zero(numbers: &[u8]) -> Result<u8, CaseKind>
    requires { All (λ number. number < most_hosts) numbers.now }
    ensures value { result ≡ count_from_zero numbers.now }
    ensures some { IfOk result (λ count. 1 ≤ count) }
    ensures few { IfOk result (λ count. count ≤ most_hosts) }
    ensures exact { IfOk result (λ count. (number : ℕ) →
        list_any (λ other. other == number) numbers.now ≡ nat_lt number count) }
    ensures all { IfOk result (λ count. count ≡ length numbers.now) }
{
    let count = numbers.len();
    refuse_unless(1 <= count, CaseKind::Hosts)?;
    refuse_unless(are_from_zero(numbers), CaseKind::Hosts)?;
    Ok(count as u8)
}

/// The number of hosts that the links join.
pub fn host_count(links: &[LinkRow]) -> usize
    ensures { result ≡ host_count links.now }
{
    links.iter().filter_map(|link| host_at(link)).count()
}

/// The number of hosts that the links join: one at least, numbered from 0 without a gap.
pub fn hosts_from_zero(alloc: Global, links: &[LinkRow]) -> Result<u8, CaseFault>
    requires { All (λ host. host < most_hosts) (hosts_of links.now) }
    ensures value { Answers (λ count. count) result
        (in_section sections.Net 0 (count_from_zero (hosts_of links.now))) }
    ensures some { IfOk result (λ count. 1 ≤ count) }
    ensures few { IfOk result (λ count. count ≤ most_hosts) }
    ensures exact { IfOk result (λ count. (host : ℕ) →
        list_any (λ other. other == host) (hosts_of links.now) ≡ nat_lt host count) }
    ensures all { IfOk result (λ count. count ≡ host_count links.now) }
{
    let hosts = hosts_of(alloc, links)?;
    in_section(Section::Net, 0, count_from_zero(&hosts))
}
