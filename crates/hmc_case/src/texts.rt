//! The script and the schedule of a case.

ghost use Rattle.std.specs.Prelude.{◌≤◌, IfOk};
ghost use Rattle.std.specs.List.{All};
ghost use Rattle.hmc_codes.specs.Limits.{most_hosts, most_cubes};
ghost use Rattle.hmc_schedule.specs.Plan.{IsStepOf, HasFlit};
ghost use Rattle.hmc_schedule.specs.Schedule.{schedule_of};
ghost use Rattle.hmc_script.specs.Items.{IsWithin};
ghost use Rattle.hmc_script.specs.Script.{script_of};
ghost use Rattle.hmc_case.specs.Case.{in_text};
ghost use Rattle.hmc_case.specs.Plan.{plan_of};
ghost use Rattle.hmc_case.specs.Reading.{Answers};
ghost use Rattle.hmc_case.specs.declared.fault.CaseKind.TheVariants as kinds;
ghost use Rattle.hmc_case.specs.declared.fault.Section.TheVariants as sections;

use crate::net::Net;
use crate::plan::plan_of;
use crate::{CaseFault, CaseKind, Section};
use hmc_schedule::{Schedule, ScheduleFault};
use hmc_script::{Script, ScriptFault};
use std::alloc::Global;

/// The script of a case with this many hosts and cubes.
pub fn script_of(alloc: Global, hosts: u8, cubes: u8, text: &str) -> Result<Script, CaseFault>
    requires hosts { hosts ≤ most_hosts }
    requires cubes { cubes ≤ most_cubes }
    ensures value { Answers (λ script. script) result
        (in_text sections.Script kinds.Script (script_of hosts cubes text.now)) }
    ensures within { IfOk result (All (IsWithin hosts cubes)) }
{
    match Script::parse(alloc, text, hosts, cubes) {
        Ok(script) => Ok(script),
        Err(ScriptFault::Memory) => Err(CaseFault::Memory),
        Err(ScriptFault::Fault { line, kind }) => Err(CaseFault::Bad {
            section: Section::Script,
            line,
            kind: CaseKind::Script(kind),
        }),
    }
}

/// The schedule of a case with these cubes and links.
pub fn schedule_of(alloc: Global, net: &Net, text: &str) -> Result<Schedule, CaseFault>
    ensures value { Answers (λ schedule. schedule) result
        (in_text sections.Schedule kinds.Schedule (schedule_of (plan_of net.now) text.now)) }
    ensures within { IfOk result (All (IsStepOf (plan_of net.now))) }
    ensures masks { IfOk result (All HasFlit) }
{
    let plan = plan_of(alloc, net)?;
    match Schedule::parse(alloc, text, &plan) {
        Ok(schedule) => Ok(schedule),
        Err(ScheduleFault::Memory) => Err(CaseFault::Memory),
        Err(ScheduleFault::Fault { line, kind }) => Err(CaseFault::Bad {
            section: Section::Schedule,
            line,
            kind: CaseKind::Schedule(kind),
        }),
    }
}
