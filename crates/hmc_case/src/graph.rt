//! The graph of the cubes and links.

ghost use Rattle.std.specs.Prelude.{◌≡◌, IfOk, OnOk};
ghost use Rattle.hmc_routes.specs.Parted.{InOnePart};
ghost use Rattle.hmc_routes.specs.WellFormed.{IsGraph};
ghost use Rattle.hmc_case.specs.Graph.{joins_of, graph_of, in_one_part};
ghost use Rattle.hmc_case.specs.Reading.{Answers, in_section};
ghost use Rattle.hmc_case.specs.declared.fault.Section.TheVariants as sections;

use crate::{CaseFault, CaseKind, LinkRow, Section};
use hmc_codes::{Graph, Join};
use hmc_routes::{RouteFault, Routes};
use std::alloc::{AllocError, Global};

// What the links join.
fn joins_of(alloc: Global, links: &[LinkRow]) -> Result<Vec<Join>, AllocError>
    ensures { IfOk result (λ joins. joins.items ≡ joins_of links.now) }
{
    links.iter().map(|link| link.join).collect(alloc)
}

fn graph_of(alloc: Global, cubes: u8, links: &[LinkRow]) -> Result<Graph, AllocError>
    ensures { IfOk result (λ graph. graph ≡ graph_of cubes links.now) }
{
    let joins = joins_of(alloc, links)?;
    Ok(Graph::new(cubes, joins))
}

/// A walk leads from each cube to each cube.
pub fn in_one_part(alloc: Global, cubes: u8, links: &[LinkRow]) -> Result<(), CaseFault>
    requires { IsGraph (graph_of cubes links.now) }
    ensures value { Answers (λ x. x) result
        (in_section sections.Net 0 (in_one_part (graph_of cubes links.now))) }
    ensures one_part { OnOk result (InOnePart (graph_of cubes links.now)) }
{
    let graph = graph_of(alloc, cubes, links)?;
    match Routes::build(alloc, &graph) {
        Ok(_) => Ok(()),
        Err(RouteFault::Memory) => Err(CaseFault::Memory),
        Err(RouteFault::Parted { .. }) => Err(CaseFault::Bad {
            section: Section::Net,
            line: 0,
            kind: CaseKind::Parted,
        }),
    }
}
