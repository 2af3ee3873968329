//! What is kept of the entries before: which tags are out, how many requests each host gave, and
//! which logic units were retired.

ghost use Rattle.std.specs.Prelude.{◌≡◌, ◌<◌, ◌+◌, ◌==◌, ℕ, Bool, false, true, replicate, slice_index_or, slice_set, None, Some, [], ◌∷◌, if◌then◌else◌, IfSome};
ghost use Rattle.hmc_codes.specs.Limits.{most_hosts, most_requests, tags};
ghost use Rattle.hmc_log.specs.Before.{is_out};
ghost use Rattle.hmc_log.specs.Counts.{command_at, IsSet};
ghost use Rattle.hmc_log.specs.Text.{may_give, answers_to, may_retire};

use hmc_codes::{Command, MOST_HOSTS, TAGS};

/// One place for each host that there can be.
const HOSTS: usize = MOST_HOSTS as usize;

/// The slots of logic units.
pub const SLOTS: usize = 8;

/// What is kept of the entries before, by the numbers of hosts, tags and slots.
#[derive(Drop)]
pub struct Counts {
    /// The command of the request that is out under a tag of a host.
    pub out: [[Option<Command>; TAGS as usize]; HOSTS],
    /// How many requests a host gave.
    pub given: [u32; HOSTS],
    /// Whether the logic unit of a slot was retired.
    pub retired: [bool; SLOTS],
}

// Sets a command.
fn set_command(commands: &mut [Option<Command>; TAGS as usize], tag: u16, command: Option<Command>)
    requires { tag < tags }
    ensures { (t : ℕ) → slice_index_or commands.new t None ≡
        (if tag == t then command else slice_index_or commands.old t None) }
{
    commands[usize::from(tag)] = command;
}

impl Counts {
    /// Nothing is out, given or retired.
    pub fn new() -> Counts
        ensures out { result.out ≡ replicate 8 (replicate 2048 None) }
        ensures given { result.given ≡ replicate 8 0 }
        ensures retired { result.retired ≡ replicate 8 false }
    {
        Counts {
            out: [[None; TAGS as usize]; HOSTS],
            given: [0; HOSTS],
            retired: [false; SLOTS],
        }
    }

    /// The command of the request that is out under a tag.
    pub fn out(&self, host: u8, tag: u16) -> Option<Command>
        requires host { host < most_hosts }
        requires tag { tag < tags }
        ensures { result ≡ command_at self.now.out host tag }
    {
        self.out[usize::from(host)][usize::from(tag)]
    }

    /// Sets the command under a tag, or that there is none.
    pub fn set_out(&mut self, host: u8, tag: u16, command: Option<Command>)
        requires host { host < most_hosts }
        requires tag { tag < tags }
        ensures out { IsSet self.old.out self.new.out host tag command }
        ensures given { self.new.given ≡ self.old.given }
        ensures retired { self.new.retired ≡ self.old.retired }
    {
        set_command(&mut self.out[usize::from(host)], tag, command);
    }

    /// How many requests a host gave.
    pub fn given(&self, host: u8) -> u32
        requires { host < most_hosts }
        ensures { result ≡ slice_index_or self.now.given host 0 }
    {
        self.given[usize::from(host)]
    }

    /// A host gave one more.
    pub fn add_given(&mut self, host: u8)
        requires host { host < most_hosts }
        requires few { slice_index_or self.old.given host 0 < most_requests }
        ensures given { (h : ℕ) → slice_index_or self.new.given h 0 ≡
            (if host == h then slice_index_or self.old.given h 0 + 1
            else slice_index_or self.old.given h 0) }
        ensures out { self.new.out ≡ self.old.out }
        ensures retired { self.new.retired ≡ self.old.retired }
    {
        self.given[usize::from(host)] += 1;
    }

    /// Whether the logic unit of a slot was retired.
    pub fn retired(&self, slot: u8) -> bool
        requires { slot < 8 }
        ensures { result ≡ slice_index_or self.now.retired slot false }
    {
        self.retired[usize::from(slot)]
    }

    /// The logic unit of a slot is retired.
    pub fn add_retired(&mut self, slot: u8)
        requires { slot < 8 }
        ensures retired { (s : ℕ) → slice_index_or self.new.retired s false ≡
            (if slot == s then true else slice_index_or self.old.retired s false) }
        ensures out { self.new.out ≡ self.old.out }
        ensures given { self.new.given ≡ self.old.given }
    {
        self.retired[usize::from(slot)] = true;
    }
}
