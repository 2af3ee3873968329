//! Links.

ghost use Rattle.std.specs.Prelude.{◌≡◌, ◌≤◌, ◌<◌, ◌^◌, vec_len, IfOk, OnOk};
ghost use Rattle.toml.specs.View.{view, table_view, array_view};
ghost use Rattle.hmc_codes.specs.Limits.{most_links};
ghost use Rattle.hmc_codes.specs.Link.{IsLinkSetup};
ghost use Rattle.hmc_codes.specs.Profile.{most_retry};
ghost use Rattle.hmc_case.specs.Reading.{Answers, Gains};
ghost use Rattle.hmc_case.specs.Graph.{AreLinks};
ghost use Rattle.hmc_case.specs.Places.{IsNewJoin};
ghost use Rattle.hmc_case.specs.Links.{link_profile_of, sizes_of, link_of, next_link, links_of};

use crate::fault::{in_section, refuse_unless};
use crate::keys::{Part, number_at, profile_at, table_of, text_at};
use crate::place::{ends_of, may_join};
use crate::rows::append;
use crate::{CaseFault, CaseKind, LinkRow, Section};
use hmc_codes::{LEAST_FLITS, LinkSetup, MOST_LINE, MOST_QUEUE, MOST_TOKENS, Profile};
use std::alloc::Global;
use toml::value::Array;
use toml::{Table, Value};

// The most flits of a retry buffer.
fn most_retry(profile: Profile) -> u16
    ensures { result ≡ most_retry profile }
{
    profile.modulus() / 2
}

// The profile of a link with a retry buffer of so many flits.
#[tactic(auto, unfolding(crate::specs::Links::link_profile_of))]
fn link_profile_of(profile: Profile, retry: u16, table: &Table) -> Result<Profile, CaseKind>
    requires { retry ≤ most_retry profile }
    ensures value { result ≡ link_profile_of profile retry (table_view table.now) }
    ensures small { IfOk result (λ own. retry ≤ most_retry own) }
{
    match profile {
        Profile::One => Ok(Profile::One),
        Profile::Two => {
            let own = profile_at(table)?;
            refuse_unless(retry <= most_retry(own), CaseKind::Range)?;
            Ok(own)
        }
    }
}

// The sizes of a link.
#[tactic(auto, unfolding(crate::specs::Links::sizes_of))]
fn sizes_of(profile: Profile, table: &Table) -> Result<LinkSetup, CaseKind>
    ensures value { result ≡ sizes_of profile (table_view table.now) }
    ensures within { IfOk result IsLinkSetup }
{
    let line = number_at("line", 1, u16::from(MOST_LINE), table)? as u8;
    let tokens = number_at("tokens", LEAST_FLITS, MOST_TOKENS, table)?;
    let retry = number_at("retry", LEAST_FLITS, most_retry(profile), table)?;
    let output = number_at("output", 1, u16::from(MOST_QUEUE), table)? as u8;
    let profile = link_profile_of(profile, retry, table)?;
    Ok(LinkSetup {
        line,
        tokens,
        retry,
        output,
        profile,
    })
}

// A link, given those before it.
#[tactic(auto, unfolding(crate::specs::Links::link_of))]
fn link_of(
    profile: Profile,
    cubes: u8,
    links: &[LinkRow],
    value: &Value,
) -> Result<LinkRow, CaseKind>
    ensures value { result ≡ link_of profile cubes links.now (view value.now) }
    ensures join { IfOk result (λ link. IsNewJoin cubes links.now link.join) }
    ensures sizes { IfOk result (λ link. IsLinkSetup link.setup) }
{
    let table = table_of(Part::Link(profile), value)?;
    let a = text_at("a", table)?;
    let b = text_at("b", table)?;
    let setup = sizes_of(profile, table)?;
    let join = ends_of(cubes, a, b)?;
    may_join(links, join)?;
    Ok(LinkRow { join, setup })
}

// Reads the next link.
fn read_link(
    profile: Profile,
    cubes: u8,
    links: &mut Vec<LinkRow>,
    value: &Value,
) -> Result<(), CaseFault>
    requires { vec_len links.old < 2 ^ 32 }
    ensures value { Gains links.old.items links.new.items result
        (next_link profile cubes links.old.items (view value.now)) }
    ensures within { AreLinks cubes links.old.items
        → OnOk result (AreLinks cubes links.new.items) }
{
    let number = links.len() as u32;
    let link = in_section(Section::Link, number, link_of(profile, cubes, links, value))?;
    append(links, link)?;
    Ok(())
}

/// The links of a case of this profile with this many cubes.
pub fn links_of(
    alloc: Global,
    profile: Profile,
    cubes: u8,
    values: &Array,
) -> Result<Vec<LinkRow>, CaseFault>
    requires { vec_len values.now ≤ most_links }
    ensures value { Answers (λ links. links.items) result
        (links_of profile cubes (array_view values.now)) }
    ensures within { IfOk result (λ links. AreLinks cubes links.items) }
    ensures count { IfOk result (λ links. vec_len links ≡ vec_len values.now) }
{
    let mut links = Vec::new(alloc);
    'values: for value in values {
        if let Err(fault) = read_link(profile, cubes, &mut links, value) {
            return Err(fault);
        }
    }
    Ok(links)
}
