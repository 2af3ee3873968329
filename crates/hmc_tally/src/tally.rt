//! What is counted of the steps, as they are taken.

ghost use Rattle.std.specs.Prelude.{◌≡◌, ◌<◌, ◌+◌, ◌^◌, ℕ, IfOk, length, replicate};
ghost use Rattle.std.specs.List.{All};
ghost use Rattle.hmc_packet.specs.Receptions.{is_arrival};
ghost use Rattle.hmc_journal.specs.Counts.{is_good};
ghost use Rattle.hmc_journal.specs.Hosts.{count_if};
ghost use Rattle.hmc_journal.specs.Setup.{unit_cube};
ghost use Rattle.hmc_tally.specs.Tally.{no_counters, no_host_steps, no_cube_counts, direction_row, host_row, cube_row, is_repeat, is_abort, one_more_sent, one_landed, one_unlocked, one_given, one_taken, one_executed, one_dropped, tallied, step_changes, CountersWithin, HostWithin, CubeWithin, IsWithin, with_row};

use hmc_codes::{Counters, CubeCounts, Memory, Unit};
use hmc_entries::Event;
use hmc_packet::{Mode, Outcome, changes};
use hmc_schedule::Step;
use std::alloc::Global;
use std::marker::Model;

/// What is counted of a host.
#[derive(Clone, Copy)]
pub struct HostSteps {
    /// Requests given.
    pub given: u32,
    /// Answers taken.
    pub taken: u32,
}

const NO_COUNTERS: Counters = Counters {
    sent: 0,
    landed: 0,
    changed: 0,
    accepted: 0,
    repeats: 0,
    aborts: 0,
};

const NO_HOST_STEPS: HostSteps = HostSteps { given: 0, taken: 0 };

const NO_CUBE_COUNTS: CubeCounts = CubeCounts {
    executed: 0,
    dropped: 0,
};

/// Whether a step lands a flit under a mask that changes it.
pub fn step_changes(step: &Step) -> bool
    ensures { result ≡ step_changes step.now }
{
    match step {
        Step::Land(_, mask) => changes(mask),
        _ => false,
    }
}

/// Whether a receiver gathers packets, so that its unlock is counted as an abort.
pub fn is_good(mode: Mode) -> bool
    ensures { result ≡ is_good mode }
{
    matches!(mode, Mode::Good)
}

// The cube of a unit.
fn unit_cube(unit: Unit) -> u8
    ensures { result ≡ unit_cube unit }
{
    match unit {
        Unit::Bank { cube, .. } => cube,
        Unit::Registers { cube } => cube,
    }
}

// Whether a packet is accepted.
fn is_arrival(outcome: Outcome) -> bool
    ensures { result ≡ is_arrival outcome }
{
    matches!(outcome, Outcome::Accepted | Outcome::Poisoned)
}

// Whether a packet was accepted before.
fn is_repeat(outcome: Outcome) -> bool
    ensures { result ≡ is_repeat outcome }
{
    matches!(outcome, Outcome::Repeat)
}

// Whether a landing is an abort.
fn is_abort(outcome: Outcome) -> bool
    ensures { result ≡ is_abort outcome }
{
    matches!(outcome, Outcome::AbortedBad(_) | Outcome::AbortedOrder)
}

// One more where a test holds.
fn count_if(test: bool, count: u32) -> u32
    requires { count + 1 < 2 ^ 32 }
    ensures { result ≡ count_if test count }
{
    if test { count + 1 } else { count }
}

// A landing more in a direction.
fn add_landing(row: &mut Counters, changed: bool, outcome: Outcome)
    requires { (most : ℕ) × (most + 1 < 2 ^ 32) × CountersWithin most row.old }
    ensures { row.new ≡ one_landed changed outcome row.old }
{
    row.landed += 1;
    row.changed = count_if(changed, row.changed);
    row.accepted = count_if(is_arrival(outcome), row.accepted);
    row.repeats = count_if(is_repeat(outcome), row.repeats);
    row.aborts = count_if(is_abort(outcome), row.aborts);
}

// A flit was sent in a direction.
fn add_sent(rows: &mut [Counters], direction: u8)
    requires { (most : ℕ) × (most + 1 < 2 ^ 32) × All (CountersWithin most) rows.old }
    ensures { rows.new ≡ with_row no_counters direction one_more_sent rows.old }
{
    if usize::from(direction) < rows.len() {
        rows[usize::from(direction)].sent += 1;
    }
}

// A flit landed in a direction.
fn add_landed(rows: &mut [Counters], direction: u8, changed: bool, outcome: Outcome)
    requires { (most : ℕ) × (most + 1 < 2 ^ 32) × All (CountersWithin most) rows.old }
    ensures { rows.new ≡ with_row no_counters direction (one_landed changed outcome) rows.old }
{
    if usize::from(direction) < rows.len() {
        add_landing(&mut rows[usize::from(direction)], changed, outcome);
    }
}

// The receiver of a direction lost its framing.
fn add_unlocked(rows: &mut [Counters], direction: u8, was_good: bool)
    requires { (most : ℕ) × (most + 1 < 2 ^ 32) × All (CountersWithin most) rows.old }
    ensures { rows.new ≡ with_row no_counters direction (one_unlocked was_good) rows.old }
{
    if usize::from(direction) < rows.len() {
        let row = &mut rows[usize::from(direction)];
        row.aborts = count_if(was_good, row.aborts);
    }
}

// A host gave one more request.
fn add_given(rows: &mut [HostSteps], host: u8)
    requires { (most : ℕ) × (most + 1 < 2 ^ 32) × All (HostWithin most) rows.old }
    ensures { rows.new ≡ with_row no_host_steps host one_given rows.old }
{
    if usize::from(host) < rows.len() {
        rows[usize::from(host)].given += 1;
    }
}

// A host took one more answer.
fn add_taken(rows: &mut [HostSteps], host: u8)
    requires { (most : ℕ) × (most + 1 < 2 ^ 32) × All (HostWithin most) rows.old }
    ensures { rows.new ≡ with_row no_host_steps host one_taken rows.old }
{
    if usize::from(host) < rows.len() {
        rows[usize::from(host)].taken += 1;
    }
}

// A cube executed one more request.
fn add_executed(rows: &mut [CubeCounts], cube: u8)
    requires { (most : ℕ) × (most + 1 < 2 ^ 32) × All (CubeWithin most) rows.old }
    ensures { rows.new ≡ with_row no_cube_counts cube one_executed rows.old }
{
    if usize::from(cube) < rows.len() {
        rows[usize::from(cube)].executed += 1;
    }
}

// A cube dropped one more packet.
fn add_dropped(rows: &mut [CubeCounts], cube: u8)
    requires { (most : ℕ) × (most + 1 < 2 ^ 32) × All (CubeWithin most) rows.old }
    ensures { rows.new ≡ with_row no_cube_counts cube one_dropped rows.old }
{
    if usize::from(cube) < rows.len() {
        rows[usize::from(cube)].dropped += 1;
    }
}

/// The counts of all directions, hosts and cubes, by their numbers. A step adds to one row.
#[derive(Drop)]
pub struct Tally {
    directions: Vec<Counters>,
    hosts: Vec<HostSteps>,
    cubes: Vec<CubeCounts>,
}

impl Model for Tally {
    ghost use Rattle.hmc_tally.specs.Tally.{TallyFields, IsTally};

    ghost Value = { TallyFields };

    ghost view = { λ t. record {
      directions = t.directions.items;
      hosts = t.hosts.items;
      cubes = t.cubes.items;
    } };

    ghost invariant = { λ t. IsTally (view t) };
}

impl Tally {
    /// Counts of so many directions, hosts and cubes, before the first step. No other call takes
    /// memory.
    pub fn build(alloc: Global, directions: u8, hosts: u8, cubes: u8) -> Result<Self, Memory>
        ensures { IfOk result (λ tally. tally ≡ record {
          directions = replicate directions no_counters;
          hosts = replicate hosts no_host_steps;
          cubes = replicate cubes no_cube_counts;
        }) }
    {
        Ok(Tally {
            directions: vec![in alloc; NO_COUNTERS; usize::from(directions)]?,
            hosts: vec![in alloc; NO_HOST_STEPS; usize::from(hosts)]?,
            cubes: vec![in alloc; NO_CUBE_COUNTS; usize::from(cubes)]?,
        })
    }

    // Counts one more step, as `add` does.
    #[inline(always)]
    fn count(&mut self, event: Event, changed: bool, was_good: bool)
        requires { (most : ℕ) × (most + 1 < 2 ^ 32) × IsWithin most self.old }
        ensures { self.new ≡ tallied changed was_good event self.old }
    {
        match event {
            Event::Sent { direction } => add_sent(&mut self.directions, direction),
            Event::Landed { direction, outcome } => {
                add_landed(&mut self.directions, direction, changed, outcome);
            }
            Event::Unlocked { direction } => {
                add_unlocked(&mut self.directions, direction, was_good);
            }
            Event::Gave { host } => add_given(&mut self.hosts, host),
            Event::Took { host } => add_taken(&mut self.hosts, host),
            Event::Executed { unit } => add_executed(&mut self.cubes, unit_cube(unit)),
            Event::Dropped { cube } => add_dropped(&mut self.cubes, cube),
            Event::Other => {}
        }
    }

    /// Counts one more step: its event, whether its mask changes, and whether the receiver that it
    /// unlocks was good.
    #[inline(always)]
    pub fn add(&mut self, event: Event, changed: bool, was_good: bool)
        requires { (most : ℕ) × (most + 1 < 2 ^ 32) × IsWithin most self.old }
        ensures counted { self.new ≡ tallied changed was_good event self.old }
        ensures within { (most : ℕ) → IsWithin most self.old → IsWithin (most + 1) self.new }
    {
        self.count(event, changed, was_good);
    }

    /// The number of directions.
    pub fn directions(&self) -> u8
        ensures { result ≡ length self.now.directions }
    {
        self.directions.len() as u8
    }

    /// The number of hosts.
    pub fn hosts(&self) -> u8
        ensures { result ≡ length self.now.hosts }
    {
        self.hosts.len() as u8
    }

    /// The number of cubes.
    pub fn cubes(&self) -> u8
        ensures { result ≡ length self.now.cubes }
    {
        self.cubes.len() as u8
    }

    /// The counts of the direction with this number.
    pub fn direction(&self, number: u8) -> Counters
        requires { number < length self.now.directions }
        ensures { result ≡ direction_row self.now number }
    {
        self.directions[usize::from(number)]
    }

    /// The counts of the host with this number.
    pub fn host(&self, number: u8) -> HostSteps
        requires { number < length self.now.hosts }
        ensures { result ≡ host_row self.now number }
    {
        self.hosts[usize::from(number)]
    }

    /// The counts of the cube with this number.
    pub fn cube(&self, number: u8) -> CubeCounts
        requires { number < length self.now.cubes }
        ensures { result ≡ cube_row self.now number }
    {
        self.cubes[usize::from(number)]
    }
}
