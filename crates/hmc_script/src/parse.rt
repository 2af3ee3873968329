//! Scripts are read.

ghost use Rattle.std.specs.Prelude.{◌≡◌, ◌≤◌, ◌<◌, ℕ, length, IfOk, OnOk};
ghost use Rattle.std.specs.List.{All};
ghost use Rattle.hmc_codes.specs.Limits.{most_cubes, most_hosts};
ghost use Rattle.hmc_script.specs.Items.{IsWithin};
ghost use Rattle.hmc_script.specs.Head.{request_in};
ghost use Rattle.hmc_script.specs.declared.meaning.Meaning.TheVariants.{Ask};
ghost use Rattle.hmc_codes.specs.Request.{IsRequest};
ghost use Rattle.hmc_script.specs.Script.{Progress, after_meaning, after_line, script_of};
ghost use Rattle.hmc_text.specs.InTurn.{at_line, Answers};

use crate::meaning::{Asked, Head, head_of, read_request};
use crate::payload::{MOST_BYTES, Room};
use crate::stored::Short;
use crate::{Script, ScriptFault, ScriptKind};
use hmc_codes::{MOST_HOSTS, MOST_REQUESTS};
use hmc_text::lines::Lines;
use std::alloc::Global;

/// One flag for each host that there can be.
const HOSTS: usize = MOST_HOSTS as usize;

// Appends the request that a line states. A fence waits for it no longer.
#[tactic(auto, unfolding(crate::specs::Script::after_meaning))]
fn follow(
    script: &mut Script,
    fences: &mut [bool; HOSTS],
    number: u32,
    host: u8,
    poisoned: bool,
    asked: &Asked,
) -> Result<(), ScriptFault>
    requires host { host < most_hosts }
    requires request { IsRequest (request_in asked.now) }
    ensures value { Answers (λ _. record { items = script.new; fences = fences.new }) result
        (at_line number (after_meaning (record { items = script.old; fences = fences.old })
        (Ask host poisoned (request_in asked.now)))) }
    ensures within { (hosts cubes : ℕ) → host < hosts → asked.now.cube < cubes
        → All (IsWithin hosts cubes) script.old
        → OnOk result (All (IsWithin hosts cubes) script.new) }
{
    if script.len() >= MOST_REQUESTS {
        return Err(ScriptFault::Fault {
            line: number,
            kind: ScriptKind::TooMany,
        });
    }
    let fenced = fences[usize::from(host)];
    fences[usize::from(host)] = false;
    let short = Short {
        host,
        fenced,
        poisoned,
        command: asked.command,
        cube: asked.cube,
        address: asked.address,
        start: 0,
    };
    script.push(&short, asked.payload)?;
    Ok(())
}

// Reads the next line. A fence waits for the next request of its host.
#[tactic(auto, unfolding(crate::specs::Script::after_line, crate::specs::Meaning::ask_of))]
fn read_line(
    script: &mut Script,
    fences: &mut [bool; HOSTS],
    room: &mut Room,
    number: u32,
    line: &[u8],
    hosts: u8,
    cubes: u8,
) -> Result<(), ScriptFault>
    requires hosts { hosts ≤ most_hosts }
    requires cubes { cubes ≤ most_cubes }
    ensures value { Answers (λ _. record { items = script.new; fences = fences.new }) result
        (at_line number
        (after_line hosts cubes (record { items = script.old; fences = fences.old })
        line.now)) }
    ensures within { All (IsWithin hosts cubes) script.old
        → OnOk result (All (IsWithin hosts cubes) script.new) }
{
    match head_of(hosts, line) {
        Ok(Head::Nothing) => Ok(()),
        Ok(Head::Fence(host)) => {
            fences[usize::from(host)] = true;
            Ok(())
        }
        Ok(Head::Ask(host, poisoned, rest)) => match read_request(cubes, rest, room) {
            Ok(asked) => follow(script, fences, number, host, poisoned, &asked),
            Err(kind) => Err(ScriptFault::Fault { line: number, kind }),
        },
        Err(kind) => Err(ScriptFault::Fault { line: number, kind }),
    }
}

impl Script {
    /// Reads a script for a case with these numbers of hosts and cubes, at most 8 each. The fault
    /// is the first one: its line, counted from 1, and what is wrong there, found word by word from
    /// left to right. Lines after line 4,294,967,295 have that number too.
    #[tactic(auto, unfolding(crate::specs::Script::script_of))]
    pub fn parse(alloc: Global, text: &str, hosts: u8, cubes: u8) -> Result<Script, ScriptFault>
        requires hosts { hosts ≤ most_hosts }
        requires cubes { cubes ≤ most_cubes }
        ensures exact { Answers (λ script. script) result (script_of hosts cubes text.now) }
        ensures within { IfOk result (All (IsWithin hosts cubes)) }
    {
        let mut script = Script::new(alloc);
        let mut fences = [false; HOSTS];
        let mut room = [0; MOST_BYTES];
        let mut left = Lines::of(text);
        'lines: while let Some((number, line)) = left.next_line() {
            if let Err(fault) = read_line(
                &mut script,
                &mut fences,
                &mut room,
                number,
                line,
                hosts,
                cubes,
            ) {
                return Err(fault);
            }
        }
        Ok(script)
    }
}
