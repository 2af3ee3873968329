//! Cases.

ghost use Rattle.std.specs.Prelude.{◌≡◌, length, IfOk};
ghost use Rattle.std.specs.List.{All};
ghost use Rattle.hmc_schedule.specs.Plan.{IsStepOf};
ghost use Rattle.hmc_script.specs.Items.{IsWithin};
ghost use Rattle.hmc_case.specs.Net.{IsNet, net_with};
ghost use Rattle.hmc_case.specs.Plan.{plan_of};
ghost use Rattle.hmc_case.specs.Together.{host_count};
ghost use Rattle.hmc_case.specs.Reading.{Answers};
ghost use Rattle.hmc_case.specs.Case.{case_of, case_with, IsCase};

use crate::net::{Net, net_of, net_with};
use crate::parts::{parts_in, table_in};
use crate::plan::plan_of;
use crate::texts::{schedule_of, script_of};
use crate::{CaseFault, CubeSetup, LinkRow};
use hmc_codes::Memory;
use hmc_schedule::{Plan, Schedule};
use hmc_script::Script;
use std::alloc::Global;
use std::marker::Model;

/// A case: cubes and links, a script and a schedule. Contracts see it as the record `CaseFields`.
#[derive(Drop)]
pub struct Case {
    net: Net,
    script: Script,
    schedule: Schedule,
}

impl Model for Case {
    ghost use Rattle.hmc_case.specs.Case.{CaseFields, IsCase};

    ghost Value = { CaseFields };

    ghost view = { λ c. record {
      net = c.net;
      script = c.script;
      schedule = c.schedule;
    } };

    ghost invariant = { λ c. IsCase (record {
      net = c.net;
      script = c.script;
      schedule = c.schedule;
    }) };
}

// The case of these cubes and links, by the texts of its script and its schedule.
fn case_with(alloc: Global, net: Net, script: &str, schedule: &str) -> Result<Case, CaseFault>
    ensures exact { Answers (λ case. case) result (case_with net script.now schedule.now) }
    ensures within { IfOk result IsCase }
{
    let cubes = net.cubes.len() as u8;
    let script = script_of(alloc, net.hosts, cubes, script)?;
    let schedule = schedule_of(alloc, &net, schedule)?;
    Ok(Case {
        net,
        script,
        schedule,
    })
}

impl Case {
    /// Reads a case. The fault is the first one: the section, the line there, and what is wrong;
    /// `docs/case.md` has their order.
    #[tactic(auto, unfolding(crate::specs::Case::case_of))]
    pub fn read(alloc: Global, bytes: &[u8]) -> Result<Case, CaseFault>
        ensures exact { Answers (λ case. case) result (case_of bytes.now) }

        // Each number that a part of the case names is one of the case, and the sizes keep their
        // limits.
        ensures within { IfOk result IsCase }
    {
        let table = table_in(alloc, bytes)?;
        let parts = parts_in(&table)?;
        let net = net_of(alloc, parts.profile, parts.cubes, parts.links)?;
        case_with(alloc, net, parts.script, parts.schedule)
    }

    /// The case of these cubes and links, this script and this schedule. The cubes and links are
    /// such as a case may have, and the script and the schedule name only parts of them. It takes
    /// no memory.
    pub fn of(
        cubes: Vec<CubeSetup>,
        links: Vec<LinkRow>,
        script: Script,
        schedule: Schedule,
    ) -> Case
        requires net { IsNet (net_with cubes.items links.items) }
        requires script { All (IsWithin (host_count links.items) (length cubes.items)) script }
        requires schedule { All (IsStepOf (plan_of (net_with cubes.items links.items))) schedule }
        ensures { result ≡ record {
          net = net_with cubes.items links.items;
          script = script;
          schedule = schedule;
        } }
    {
        script.invariant();
        schedule.invariant();
        Case {
            net: net_with(cubes, links),
            script,
            schedule,
        }
    }

    /// Nothing is done: what every case keeps is the contract.
    pub fn invariant(&self)
        ensures { IsCase self.now }
    {
        let _ = &self.net;
    }

    /// The cubes, by their numbers from 0.
    pub fn cubes(&self) -> &[CubeSetup]
        ensures { result.now ≡ self.now.net.cubes }
    {
        self.net.cubes.as_slice()
    }

    /// The links, by their numbers from 0. Link i has the directions 2i, from its end a to b, and
    /// 2i + 1, from b to a.
    pub fn links(&self) -> &[LinkRow]
        ensures { result.now ≡ self.now.net.links }
    {
        self.net.links.as_slice()
    }

    /// The number of hosts; 1 to 8.
    pub fn hosts(&self) -> u8
        ensures { result ≡ self.now.net.hosts }
    {
        self.net.hosts
    }

    /// The requests of the hosts.
    pub fn script(&self) -> &Script
        ensures { result.now ≡ self.now.script }
    {
        &self.script
    }

    /// The steps of the parts, in order.
    pub fn schedule(&self) -> &Schedule
        ensures { result.now ≡ self.now.schedule }
    {
        &self.schedule
    }

    /// The schedule alone. It takes no memory.
    pub fn into_schedule(self) -> Schedule
        ensures { result ≡ self.schedule }
    {
        self.schedule
    }

    /// The parts that a schedule of this case may name. `Memory` if out of memory.
    pub fn plan(&self, alloc: Global) -> Result<Plan, Memory>
        ensures { IfOk result (λ plan. plan ≡ plan_of self.now.net) }
    {
        plan_of(alloc, &self.net)
    }
}
