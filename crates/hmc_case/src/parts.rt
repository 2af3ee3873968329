//! The document of a case, and its keys.

ghost use Rattle.std.specs.Prelude.{◌≤◌, vec_len, IfOk};
ghost use Rattle.toml.specs.View.{table_view, array_view};
ghost use Rattle.hmc_codes.specs.Limits.{most_cubes, most_links};
ghost use Rattle.hmc_text.specs.Reading.{Gives};
ghost use Rattle.hmc_case.specs.Reading.{Answers, in_section};
ghost use Rattle.hmc_case.specs.Parts.{table_in, parts_of};
ghost use Rattle.hmc_case.specs.declared.fault.Section.TheVariants as sections;

use crate::keys::{Part, items_at, known_keys, profile_at, text_at};
use crate::{CaseFault, CaseKind, Section};
use hmc_codes::{MOST_CUBES, MOST_LINKS, Profile};
use std::alloc::Global;
use std::str::from_utf8;
use toml::Table;
use toml::value::Array;

/// The values at the keys of a case.
#[derive(Clone, Copy)]
pub struct Parts<'a> {
    pub profile: Profile,
    pub cubes: &'a Array,
    pub links: &'a Array,
    pub script: &'a str,
    pub schedule: &'a str,
}

/// The bytes as a TOML document.
pub fn table_in(alloc: Global, bytes: &[u8]) -> Result<Table, CaseFault>
    ensures { Answers (λ table. table_view table) result
        (in_section sections.Toml 0 (table_in bytes.now)) }
{
    let bad = CaseFault::Bad {
        section: Section::Toml,
        line: 0,
        kind: CaseKind::Syntax,
    };
    let Ok(text) = from_utf8(bytes) else {
        return Err(bad);
    };
    match toml::table_from_str(alloc, text) {
        Ok(table) => Ok(table),
        Err(error) => {
            if error.is_memory() {
                Err(CaseFault::Memory)
            } else {
                Err(bad)
            }
        }
    }
}

// The keys of the document.
#[tactic(auto, unfolding(crate::specs::Parts::parts_of))]
fn parts_of(table: &Table) -> Result<Parts<'_>, CaseKind>
    ensures value { Gives (λ parts. record {
      profile = parts.profile;
      cubes = array_view parts.cubes.now;
      links = array_view parts.links.now;
      script = parts.script.now;
      schedule = parts.schedule.now;
    }) result (parts_of (table_view table.now)) }
    ensures some_cubes { IfOk result (λ parts. 1 ≤ vec_len parts.cubes.now) }
    ensures few_cubes { IfOk result (λ parts. vec_len parts.cubes.now ≤ most_cubes) }
    ensures some_links { IfOk result (λ parts. 1 ≤ vec_len parts.links.now) }
    ensures few_links { IfOk result (λ parts. vec_len parts.links.now ≤ most_links) }
{
    known_keys(Part::Top, table)?;
    let profile = profile_at(table)?;
    let cubes = items_at("cubes", MOST_CUBES as usize, table)?;
    let links = items_at("links", MOST_LINKS as usize, table)?;
    let script = text_at("script", table)?;
    let schedule = text_at("schedule", table)?;
    Ok(Parts {
        profile,
        cubes,
        links,
        script,
        schedule,
    })
}

/// The keys of the document, or the fault of section `top`.
pub fn parts_in(table: &Table) -> Result<Parts<'_>, CaseFault>
    ensures value { Answers (λ parts. record {
      profile = parts.profile;
      cubes = array_view parts.cubes.now;
      links = array_view parts.links.now;
      script = parts.script.now;
      schedule = parts.schedule.now;
    }) result (in_section sections.Top 0 (parts_of (table_view table.now))) }
    ensures some_cubes { IfOk result (λ parts. 1 ≤ vec_len parts.cubes.now) }
    ensures few_cubes { IfOk result (λ parts. vec_len parts.cubes.now ≤ most_cubes) }
    ensures some_links { IfOk result (λ parts. 1 ≤ vec_len parts.links.now) }
    ensures few_links { IfOk result (λ parts. vec_len parts.links.now ≤ most_links) }
{
    match parts_of(table) {
        Ok(parts) => Ok(parts),
        Err(kind) => Err(CaseFault::Bad {
            section: Section::Top,
            line: 0,
            kind,
        }),
    }
}
