//! What those keep of a case who take its steps, before the first one.

ghost use Rattle.std.specs.Prelude.{◌≡◌, ◌≤◌, ◌<◌, ◌*◌, ◌^◌, IfOk, length, replicate};
ghost use Rattle.hmc_codes.specs.Limits.{most_cubes, most_hosts, most_links};
ghost use Rattle.hmc_case.specs.Case.{IsCase};
ghost use Rattle.hmc_journal.specs.Setup.{hosts_in, directions_in};
ghost use Rattle.hmc_tally.specs.Tally.{no_counters, no_host_steps, no_cube_counts, opening_tally};
ghost use Rattle.hmc_wiring.specs.Wiring.{IsLaidOut};
ghost use Rattle.hmc_kept.specs.Hosts.{AreNewHosts};
ghost use Rattle.hmc_kept.specs.Parts.{AreNewParts, topology_in};

use crate::Pipes;
use hmc_case::{Case, CubeSetup, LinkRow};
use hmc_codes::Memory;
use hmc_host::Host;
use hmc_script::Script;
use hmc_tally::Tally;
use hmc_wiring::Wiring;
use std::alloc::Global;

/// The wiring of a case, its hosts, the packets that are forwarded, and the counts.
#[derive(Drop)]
pub struct Parts {
    pub wiring: Wiring,
    pub hosts: Vec<Host>,
    pub piped: Pipes,
    pub tally: Tally,
}

impl Parts {
    /// Those of a case in which nothing happened yet. All memory that its steps will need of them
    /// is reserved. `Memory` if out of memory. Of the case, its own rules are said again.
    pub fn build(alloc: Global, case: &Case) -> Result<Self, Memory>
        ensures parts { IfOk result (λ parts. AreNewParts (topology_in case.now) case.now.script
            parts.wiring parts.hosts.items parts.piped parts.tally) }
        ensures case { IsCase case.now }
        ensures few { length case.now.schedule < 2 ^ 32 }
    {
        case.invariant();
        case.script().invariant();
        let _ = case.schedule().len();
        Self::opening(
            alloc,
            case.cubes(),
            case.links(),
            case.hosts(),
            case.script(),
        )
    }

    // The same, by what the case is made of.
    fn opening(
        alloc: Global,
        cubes: &[CubeSetup],
        links: &[LinkRow],
        hosts: u8,
        script: &Script,
    ) -> Result<Self, Memory>
        requires laid_out { IsLaidOut (record { cubes = cubes.now; links = links.now }) }
        requires hosts { hosts ≡ hosts_in (record { cubes = cubes.now; links = links.now }) }
        requires few { hosts ≤ most_hosts }
        ensures { IfOk result (λ parts. AreNewParts
            (record { cubes = cubes.now; links = links.now }) script.now
            parts.wiring parts.hosts.items parts.piped parts.tally) }
    {
        let wiring = Wiring::build(alloc, cubes, links)?;
        let tally = new_tally(alloc, cubes, links, hosts)?;
        Self::with_hosts(alloc, wiring, tally, 2 * links.len(), hosts, script)
    }

    // The same, with the wiring and the counts. It owns less at each step than one function would.
    fn with_hosts(
        alloc: Global,
        wiring: Wiring,
        tally: Tally,
        directions: usize,
        hosts: u8,
        script: &Script,
    ) -> Result<Self, Memory>
        requires directions { directions ≡ directions_in wiring }
        requires hosts { hosts ≡ hosts_in wiring }
        requires few { hosts ≤ most_hosts }
        requires uncounted { tally ≡ opening_tally wiring }
        ensures { IfOk result (λ parts. AreNewParts wiring script.now
            parts.wiring parts.hosts.items parts.piped parts.tally) }
    {
        let hosts = new_hosts(alloc, hosts, script)?;
        let piped = Pipes::build(alloc, directions)?;
        Ok(Parts {
            wiring,
            hosts,
            piped,
            tally,
        })
    }
}

/// Counts of two directions for each link, of so many hosts and of these cubes, before the first
/// step.
pub fn new_tally(
    alloc: Global,
    cubes: &[CubeSetup],
    links: &[LinkRow],
    hosts: u8,
) -> Result<Tally, Memory>
    requires cubes { length cubes.now ≤ most_cubes }
    requires links { length links.now ≤ most_links }
    ensures { IfOk result (λ tally. tally ≡ record {
      directions = replicate (2 * length links.now) no_counters;
      hosts = replicate hosts no_host_steps;
      cubes = replicate (length cubes.now) no_cube_counts;
    }) }
{
    let directions = 2 * links.len() as u8;
    Tally::build(alloc, directions, hosts, cubes.len() as u8)
}

/// So many hosts, at most 8, that have given none of their requests of a script.
pub fn new_hosts(alloc: Global, count: u8, script: &Script) -> Result<Vec<Host>, Memory>
    requires { count ≤ most_hosts }
    ensures { IfOk result (λ hosts. AreNewHosts count script.now hosts.items) }
{
    let mut hosts = Vec::with_capacity(alloc, usize::from(count))?;
    for number in 0..count {
        hosts.push(Host::new(alloc, number, script)?)?;
    }
    Ok(hosts)
}
