//! A schedule as it is written: a segment for each line that has steps.

ghost use Rattle.std.specs.Prelude.{◌≡◌, ◌<◌, ◌≤◌, ◌^◌, ◌+◌, ◌-◌, ◌*◌, ◌/◌, ◌%◌, ◌++◌, [], length, filter, slice_get, Some, IfOk, OnOk, OnErr, drop, take};
ghost use Rattle.std.specs.Option.{option_map_or};
ghost use Rattle.std.specs.List.Sorted.{IsNonDecreasingBy, IsPartitionPoint};
ghost use Rattle.hmc_codes.specs.Limits.{most_steps};
ghost use Rattle.hmc_schedule.specs.Noise.{is_land, lands_of, mask_at};
ghost use Rattle.hmc_schedule.specs.declared.written.Stretch.TheVariants as stretch;
ghost use Rattle.hmc_schedule.specs.RoundsLeft.{steps_left};
ghost use Rattle.hmc_schedule.specs.StepsLeft.{HoldRepeats, IsRepeatsAt};
ghost use Rattle.hmc_schedule.specs.Written.{round_at, stretch_of, noisy_at, kept_of, held_of, rounds_of_line, held_steps, IsKept, IsRounds, IsStretch, IsHeld};

use crate::Step;
use crate::noise::Noise;
use crate::rounds_left::RoundsLeft;
use hmc_codes::Flit;
use std::alloc::{AllocError, Global};
use std::marker::Model;

/// Where the steps of a round are kept.
#[derive(Clone, Copy)]
pub struct KeptRound {
    /// The place of the first of them.
    pub start: usize,
    /// How many they are.
    pub len: usize,
    /// The number of landings among them, one in each direction.
    pub lands: u8,
}

/// A round, several times, with noise or without.
#[derive(Clone, Copy)]
pub struct Rounds {
    /// The round.
    pub round: KeptRound,
    /// How many times.
    pub count: u32,
    /// Its noise, with the landings that were counted before the first of these rounds.
    pub noise: Option<Noise>,
}

/// The steps that a line states.
#[derive(Clone, Copy)]
pub enum Stretch {
    /// One step.
    One(Step),
    /// Some rounds.
    Many(Rounds),
}

/// The steps of a line, as a segment holds them.
#[derive(Clone, Copy)]
pub enum Held {
    /// One step.
    One(Step),
    /// The place of its rounds among those that are kept for lines.
    Many(u32),
}

/// The steps of a line, and where they begin.
#[derive(Clone, Copy)]
pub struct Segment {
    /// The number of steps before them.
    pub start: u32,
    /// The steps.
    pub held: Held,
}

// A line with one step takes no more memory than that step and two numbers. Rounds take more, so
// they are kept apart.
const _: () = prove!(size_of::<Segment>() == 24);

/// Steps that are those of a kept round without noise, over and over.
#[derive(Clone, Copy)]
pub struct Repeats {
    /// The place of the first step of the round among those that are kept.
    pub from: usize,
    /// The place of the step that comes next.
    pub next: usize,
    /// The place after the last step of the round.
    pub end: usize,
    /// The place in the schedule that is after the last of them.
    pub until: u32,
}

/// None.
pub const NO_REPEATS: Repeats = Repeats {
    from: 0,
    next: 0,
    end: 0,
    until: 0,
};

/// A step of a schedule, and the steps from it on, if they are those of a round.
#[derive(Clone, Copy)]
pub struct Found {
    /// The step.
    pub step: Step,
    /// It and those that follow it, or none where its line has noise or no round.
    pub repeats: Repeats,
}

/// At most `MOST_STEPS` steps, in memory for the lines that state them and for each kept round.
/// Contracts see the steps of the kept rounds, and the list of all steps.
#[derive(Drop)]
pub struct Written {
    kept: Vec<Step>,
    many: Vec<Rounds>,
    segments: Vec<Segment>,
    len: u32,
}

impl Model for Written {
    ghost use Rattle.hmc_schedule.specs.Written.{WrittenFields, kept_of, steps_in, IsWritten};

    ghost Value = { WrittenFields };

    ghost view = { λ w. record {
      kept = w.kept.items;
      steps = steps_in (kept_of w.kept.items w.many.items) w.segments.items;
    } };

    ghost invariant = { λ w.
        IsWritten (kept_of w.kept.items w.many.items) w.segments.items w.len };
}

// The number of segments that begin at or before this place.
fn begun_count(segments: &[Segment], at: u32) -> usize
    requires { IsNonDecreasingBy (λ segment. segment.start) segments.now }
    ensures bound { result ≤ length segments.now }
    ensures point { IsPartitionPoint
        (λ segment. segment.start ≤ at) (λ segment. at < segment.start) segments.now result }
{
    segments.partition_point(|segment| segment.start <= at)
}

// The mask of the landing with this number, where it was this one without noise.
fn mask_at(noise: Noise, number: u64, mask: Flit) -> Flit
    requires { 1 ≤ noise.every }
    ensures { result ≡ mask_at noise number mask }
{
    if number % u64::from(noise.every) == 0 {
        noise.mask
    } else {
        mask
    }
}

// The step at this place of noisy rounds, which without noise is this one. The landings counted
// before it are those before the rounds, those of whole rounds, and those in the directions below.
fn noisy_at(noise: Noise, round: KeptRound, at: u32, step: Step) -> Step
    requires some { 1 ≤ noise.every }
    requires round { 0 < round.len }
    ensures { result ≡ noisy_at noise round at step }
{
    match step {
        Step::Land(direction, mask) => {
            let whole = (at as usize / round.len) as u64 * u64::from(round.lands);
            let before = u64::from(noise.count) + whole + u64::from(direction);
            Step::Land(direction, mask_at(noise, before + 1, mask))
        }
        _ => step,
    }
}

// The step at this place of rounds that are kept.
fn step_of_rounds(kept: &[Step], rounds: Rounds, at: u32) -> Step
    requires rounds { IsRounds kept.now rounds }
    requires inside { at < length (stretch_of kept.now (stretch.Many rounds)) }
    ensures { slice_get (stretch_of kept.now (stretch.Many rounds)) at ≡ Some result }
{
    let round = rounds.round;
    let step = kept[round.start + at as usize % round.len];
    match rounds.noise {
        Some(noise) => noisy_at(noise, round, at, step),
        None => step,
    }
}

// The step at this place of the kept rounds and their segments. The segment has the place.
fn step_of(kept: &[Step], many: &[Rounds], segment: Segment, at: u32) -> Step
    requires held { IsHeld (kept_of kept.now many.now) segment.held }
    requires begun { segment.start ≤ at }
    requires inside { at - segment.start
        < length (held_steps (kept_of kept.now many.now) segment.held) }
    ensures { slice_get (held_steps (kept_of kept.now many.now) segment.held) (at - segment.start)
        ≡ Some result }
{
    match segment.held {
        Held::One(step) => step,
        Held::Many(place) => step_of_rounds(kept, many[place as usize], at - segment.start),
    }
}

// Where the segment with this number begins, and after the last one the number of all steps.
fn start_at(segments: &[Segment], number: usize, len: u32) -> u32
    ensures { result ≡ option_map_or (λ (segment : Segment). segment.start)
        (slice_get segments.now number) len }
{
    match segments.get(number) {
        Some(segment) => segment.start,
        None => len,
    }
}

// The steps of these rounds from the place `at` of them on, which in the schedule end before
// `until`.
fn repeats_of_rounds(kept: &[Step], rounds: Rounds, at: u32, until: u32) -> Repeats
    requires rounds { IsRounds kept.now rounds }
    requires inside { at < length (stretch_of kept.now (stretch.Many rounds)) }
    ensures until { 0 < result.until → result.until ≡ until }
    ensures hold { 0 < result.until →
        HoldRepeats (stretch_of kept.now (stretch.Many rounds)) kept.now at result }
{
    match rounds.noise {
        Some(_) => NO_REPEATS,
        None => {
            let round = rounds.round;
            let from = round.start;
            let next = from + at as usize % round.len;
            let end = from + round.len;
            Repeats {
                from,
                next,
                end,
                until,
            }
        }
    }
}

// The steps of a segment from the place `at` of the schedule on, which end before `until`.
fn repeats_of(kept: &[Step], many: &[Rounds], segment: Segment, at: u32, until: u32) -> Repeats
    requires held { IsHeld (kept_of kept.now many.now) segment.held }
    requires begun { segment.start ≤ at }
    requires inside { at - segment.start
        < length (held_steps (kept_of kept.now many.now) segment.held) }
    ensures until { 0 < result.until → result.until ≡ until }
    ensures hold { 0 < result.until →
        HoldRepeats (held_steps (kept_of kept.now many.now) segment.held) kept.now
        (at - segment.start) result }
{
    match segment.held {
        Held::One(_) => NO_REPEATS,
        Held::Many(place) => {
            repeats_of_rounds(kept, many[place as usize], at - segment.start, until)
        }
    }
}

// The step at this place, which the segment has, and those from it on.
fn find_in(kept: &[Step], many: &[Rounds], segment: Segment, at: u32, until: u32) -> Found
    requires held { IsHeld (kept_of kept.now many.now) segment.held }
    requires begun { segment.start ≤ at }
    requires inside { at - segment.start
        < length (held_steps (kept_of kept.now many.now) segment.held) }
    ensures step { slice_get (held_steps (kept_of kept.now many.now) segment.held)
        (at - segment.start) ≡ Some result.step }
    ensures until { 0 < result.repeats.until → result.repeats.until ≡ until }
    ensures hold { 0 < result.repeats.until →
        HoldRepeats (held_steps (kept_of kept.now many.now) segment.held) kept.now
        (at - segment.start) result.repeats }
{
    Found {
        step: step_of(kept, many, segment, at),
        repeats: repeats_of(kept, many, segment, at, until),
    }
}

// Keeps the rounds of a stretch if it has rounds, and returns how a segment holds it.
fn hold(many: &mut Vec<Rounds>, stretch: Stretch) -> Result<Held, AllocError>
    requires few { length many.old.items < 2 ^ 32 }
    ensures held { IfOk result (λ held. held ≡ held_of (length many.old.items) stretch) }
    ensures more { OnOk result
        (many.new.items ≡ many.old.items ++ rounds_of_line stretch) }
    ensures err { OnErr result (many.new.items ≡ many.old.items) }
{
    match stretch {
        Stretch::One(step) => Ok(Held::One(step)),
        Stretch::Many(rounds) => {
            let place = many.len() as u32;
            many.push(rounds)?;
            Ok(Held::Many(place))
        }
    }
}

impl Written {
    /// No steps. It takes no memory.
    #[tactic(auto, unfolding(crate::specs::Written::steps_in))]
    pub fn new(alloc: Global) -> Self
        ensures { result.steps ≡ [] }
    {
        Written {
            kept: Vec::new(alloc),
            many: Vec::new(alloc),
            segments: Vec::new(alloc),
            len: 0,
        }
    }

    /// The number of steps.
    pub fn len(&self) -> u32
        ensures value { result ≡ length self.now.steps }
        ensures few { result ≤ most_steps }
    {
        self.len
    }

    /// The step at this place, counted from 0 and below the length.
    pub fn step(&self, at: u32) -> Step
        requires { at < length self.now.steps }
        ensures { slice_get self.now.steps at ≡ Some result }
    {
        self.find(at).step
    }

    /// The step at this place, counted from 0 and below the length, and those from it on.
    pub fn find(&self, at: u32) -> Found
        requires { at < length self.now.steps }
        ensures step { slice_get self.now.steps at ≡ Some result.step }
        ensures repeats { IsRepeatsAt self.now at result.repeats }
    {
        let begun = begun_count(&self.segments, at);
        let segment = self.segments[begun - 1];
        let until = start_at(&self.segments, begun, self.len);
        find_in(&self.kept, &self.many, segment, at, until)
    }

    /// The kept step at this place, counted from 0.
    #[inline(always)]
    pub fn kept_step(&self, place: usize) -> &Step
        requires { place < length self.now.kept }
        ensures { slice_get self.now.kept place ≡ Some result.now }
    {
        &self.kept[place]
    }

    /// The kept steps from this place on and before that one, counted from 0.
    #[inline(always)]
    pub fn kept_steps(&self, place: usize, end: usize) -> &[Step]
        requires { place < end → end ≤ length self.now.kept }
        ensures { result.now ≡ take (end - place) (drop place self.now.kept) }
    {
        if place >= end {
            return &self.kept[..0];
        }
        &self.kept[place..end]
    }

    /// All rounds, in their order.
    pub fn in_rounds(&self) -> RoundsLeft<'_>
        ensures { steps_left result [] ≡ self.now.steps }
    {
        RoundsLeft::of(&self.kept, &self.many, &self.segments)
    }

    /// Keeps a round with this number of landings, one in each direction, and returns where it is.
    pub fn keep(&mut self, round: &[Step], lands: u8) -> Result<KeptRound, AllocError>
        requires { filter is_land round.now ≡ lands_of lands }
        ensures steps { self.new.steps ≡ self.old.steps }
        ensures kept { IfOk result (IsKept self.new.kept) }
        ensures round { IfOk result (λ place. round_at self.new.kept place ≡ round.now) }
        ensures lands { IfOk result (λ place. place.lands ≡ lands) }
    {
        let start = self.kept.len();
        self.kept.extend_from_slice(round)?;
        let len = round.len();
        Ok(KeptRound { start, len, lands })
    }

    /// Appends so many steps, for which there is room.
    pub fn append(&mut self, stretch: Stretch, count: u32) -> Result<(), AllocError>
        requires stretch { IsStretch self.old.kept stretch }
        requires count { count ≡ length (stretch_of self.old.kept stretch) }
        requires room { length self.old.steps + count ≤ most_steps }
        ensures kept { self.new.kept ≡ self.old.kept }
        ensures ok { OnOk result
            (self.new.steps ≡ self.old.steps ++ stretch_of self.old.kept stretch) }
        ensures err { OnErr result (self.new ≡ self.old) }
    {
        if count == 0 {
            return Ok(());
        }
        let before = self.many.len();
        let held = hold(&mut self.many, stretch)?;
        let start = self.len;
        if let Err(memory) = self.segments.push(Segment { start, held }) {
            self.many.truncate(before);
            return Err(AllocError::from(memory));
        }
        self.len += count;
        Ok(())
    }
}
