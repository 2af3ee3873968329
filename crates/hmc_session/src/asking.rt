//! Requests in the words of a script.

ghost use Rattle.std.specs.Prelude.{◌≡◌, ◌≤◌, List, Some, None, IfSome, IfErr, OnOk, OnErr};
ghost use Rattle.hmc_codes.specs.Limits.{most_cubes, most_hosts};
ghost use Rattle.hmc_entries.specs.declared.entry.Entry.{Entry};
ghost use Rattle.hmc_journal.specs.Setup.{Setup};
ghost use Rattle.hmc_script.specs.Script.{script_of};
ghost use Rattle.hmc_session.specs.Asking.{told_of, item_in, item_read, line_refusal, AskedFor, GivesItem};
ghost use Rattle.hmc_session.specs.Session.{session_of, StandsIn};

use crate::parts::{cube_count, host_count};
use crate::{LineNotAsked, NotAsked, Session};
use hmc_script::{Item, Script, ScriptFault};
use hmc_units::Workbench;
use std::alloc::Global;

// The request of a script that has one.
fn only_item(script: &Script) -> Result<Item, LineNotAsked>
    ensures { GivesItem result (item_read (Ok script.now)) }
{
    if script.len() != 1 {
        return Err(LineNotAsked::NotOne);
    }
    Ok(script.item(0))
}

// The one request of a text, for these numbers of hosts and cubes.
fn text_item(alloc: Global, text: &str, hosts: u8, cubes: u8) -> Result<Item, LineNotAsked>
    requires hosts { hosts ≤ most_hosts }
    requires cubes { cubes ≤ most_cubes }
    ensures { GivesItem result (item_read (script_of hosts cubes text.now)) }
{
    match Script::parse(alloc, text, hosts, cubes) {
        Ok(script) => only_item(&script),
        Err(ScriptFault::Memory) => Err(LineNotAsked::Refused(NotAsked::Memory)),
        Err(ScriptFault::Fault { line, kind }) => Err(LineNotAsked::Fault { line, kind }),
    }
}

impl<B: Workbench> Session<B> {
    /// The one request that a text states, in the words of a script for the hosts and cubes of the
    /// session, or why it states none. A fence of its host may be on a line before it; a fence that
    /// no request of its host follows does nothing. Nothing is asked.
    pub fn item_of(&self, alloc: Global, text: &str) -> Result<Item, LineNotAsked>
        ensures { GivesItem result (item_in self.now.plan text.now) }
    {
        let hosts = host_count(self.plan());
        let cubes = cube_count(self.plan());
        text_item(alloc, text, hosts, cubes)
    }

    /// Asks for the one request that a text states, in the words of a script for the hosts and
    /// cubes of the session. A fence of its host may be on a line before it; a fence that no
    /// request of its host follows does nothing. An error says why no host is asked; then nothing
    /// changes.
    pub fn ask_line(&mut self, alloc: Global, text: &str) -> Result<(), LineNotAsked>
        // It is asked where nothing refuses it, unless out of memory.
        ensures refused { IfErr result (λ refusal. IfSome (told_of refusal) (λ told.
            line_refusal (session_of B.slots self.old) text.now ≡ Some told)) }
        ensures asked { OnOk result
            (line_refusal (session_of B.slots self.old) text.now ≡ None) }
        ensures same { OnErr result
            (session_of B.slots self.new ≡ session_of B.slots self.old) }

        // The session stands for the case with the request of the text, and for the same journal.
        ensures stands { (setup : Setup) (past : List Entry) →
            StandsIn (session_of B.slots self.old) setup past →
            OnOk result (AskedFor (session_of B.slots self.old) (session_of B.slots self.new)
            setup past text.now) }
        ensures finished { self.new.finished ≡ self.old.finished }
        ensures plan { self.new.plan ≡ self.old.plan }
    {
        let item = match self.item_of(alloc, text) {
            Ok(item) => item,
            Err(refusal) => return Err(refusal),
        };
        match self.ask(item.host, item.fenced, item.poisoned, &item.request) {
            Ok(()) => Ok(()),
            Err(refusal) => Err(LineNotAsked::Refused(refusal)),
        }
    }
}
