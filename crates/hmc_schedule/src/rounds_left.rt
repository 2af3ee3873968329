//! Going through a schedule in its order.

ghost use Rattle.std.specs.Prelude.{◌≡◌, ◌<◌, ◌≤◌, ◌-◌, ℕ, [], ◌∷◌, ◌++◌, List, Some, true, IfSome, IfNone};
ghost use Rattle.std.specs.List.{All};
ghost use Rattle.hmc_schedule.specs.Noise.{is_land, noisy_if};
ghost use Rattle.hmc_schedule.specs.RoundsLeft.{steps_left, noise_left, noise_of, count_of, IsCountdown};
ghost use Rattle.hmc_schedule.specs.Round.{repeated};
ghost use Rattle.hmc_schedule.specs.Written.{kept_of, held_steps, steps_in, stretch_of, IsHeld, IsRounds};
ghost use Rattle.hmc_schedule.specs.declared.step.Step.{Step};
ghost use Rattle.hmc_schedule.specs.declared.step.Step.TheVariants as steps;
ghost use Rattle.hmc_schedule.specs.declared.written.Stretch.TheVariants as stretch;

use crate::Step;
use crate::noise::Noise;
use crate::written::{Held, Rounds, Segment};
use hmc_codes::Flit;
use std::marker::Model;
use std::slice;

/// Noise, by how far its next mask is.
#[derive(Clone, Copy)]
pub struct Countdown {
    /// Each n-th landing has the mask.
    pub every: u32,
    /// The mask.
    pub mask: Flit,
    /// How many landings there are up to the next one that has the mask, with that one.
    pub until: u32,
}

/// The rounds that are left of a line; a single step is a round of its own.
#[derive(Drop)]
pub struct Line<'a> {
    round: &'a [Step],
    count: u32,
    noise: Option<Countdown>,
}

/// The rounds that are left of a schedule. Contracts see the steps that are left.
#[derive(Drop)]
pub struct RoundsLeft<'a> {
    kept: &'a [Step],
    many: &'a [Rounds],
    segments: &'a [Segment],
    round: &'a [Step],
    count: u32,
    noise: Option<Countdown>,
}

impl<'a> Model for RoundsLeft<'a> {
    ghost use Rattle.std.specs.Prelude.{◌+◌};
    ghost use Rattle.hmc_schedule.specs.Round.{repeated};
    ghost use Rattle.hmc_schedule.specs.RoundsLeft.{LeftFields, noise_left, AreLeft, rounds_in};
    ghost use Rattle.hmc_schedule.specs.Written.{kept_of, steps_in};

    ghost Value = { LeftFields };

    ghost view = { λ l. record {
      noise = noise_left l.noise;
      more = repeated l.count l.round.now;
      later = steps_in (kept_of l.kept.now l.many.now) l.segments.now;
      rounds = l.count + rounds_in l.many.now l.segments.now;
    } };

    ghost invariant = { λ l.
        AreLeft (kept_of l.kept.now l.many.now) l.segments.now l.noise };
}

impl Countdown {
    fn of(noise: Noise) -> Countdown
        requires { 1 ≤ noise.every }
        ensures keeps { IsCountdown result }
        ensures same { (steps : List Step) →
            noisy_if (noise_left (Some result)) steps ≡ noisy_if (Some noise) steps }
    {
        let passed = noise.count % noise.every;
        let mask = noise.mask;
        Countdown {
            every: noise.every,
            mask,
            until: noise.every - passed,
        }
    }

    // A landing of a round: its mask.
    #[inline(always)]
    fn land(&mut self, mask: Flit) -> Flit
        requires { IsCountdown self.old }
        ensures keeps { IsCountdown self.new }
        ensures mask { (direction : ℕ) (rest : List Step) →
            noisy_if (noise_left (Some self.old)) (steps.Land direction mask ∷ rest)
            ≡ steps.Land direction result ∷ noisy_if (noise_left (Some self.new)) rest }
    {
        if self.until > 1 {
            self.until -= 1;
            return mask;
        }
        self.until = self.every;
        self.mask
    }
}

// A landing under noise, which counts it: its mask.
#[inline(always)]
fn mask_under(noise: &mut Option<Countdown>, mask: Flit) -> Flit
    requires { IfSome noise.old IsCountdown }
    ensures keeps { IfSome noise.new IsCountdown }
    ensures mask { (direction : ℕ) (rest : List Step) →
        noisy_if (noise_left noise.old) (steps.Land direction mask ∷ rest)
        ≡ steps.Land direction result ∷ noisy_if (noise_left noise.new) rest }
{
    match noise {
        Some(countdown) => countdown.land(mask),
        None => mask,
    }
}

// Whether a step is a landing.
#[inline(always)]
fn is_land(step: &Step) -> bool
    ensures { result ≡ is_land step.now }
{
    matches!(step, Step::Land(_, _))
}

// A landing under noise, which counts it.
#[inline(always)]
fn land_under(noise: &mut Option<Countdown>, step: Step) -> Step
    requires noise { IfSome noise.old IsCountdown }
    requires land { is_land step ≡ true }
    ensures keeps { IfSome noise.new IsCountdown }
    ensures step { (rest : List Step) → noisy_if (noise_left noise.old) (step ∷ rest)
        ≡ result ∷ noisy_if (noise_left noise.new) rest }
{
    let Step::Land(direction, mask) = step else {
        unreachable!()
    };
    Step::Land(direction, mask_under(noise, mask))
}

// The step under noise, which counts it.
#[tactic(auto, using(crate::proofs::CountdownLemmas::silent))]
#[inline(always)]
fn under(noise: &mut Option<Countdown>, step: Step) -> Step
    requires { IfSome noise.old IsCountdown }
    ensures keeps { IfSome noise.new IsCountdown }
    ensures step { (rest : List Step) → noisy_if (noise_left noise.old) (step ∷ rest)
        ≡ result ∷ noisy_if (noise_left noise.new) rest }
{
    if !is_land(&step) {
        return step;
    }
    land_under(noise, step)
}

// The noise of rounds.
fn countdown_of(noise: Option<Noise>) -> Option<Countdown>
    requires { IfSome noise (λ noise. 1 ≤ noise.every) }
    ensures keeps { IfSome result IsCountdown }
    ensures same { (steps : List Step) →
        noisy_if (noise_left result) steps ≡ noisy_if noise steps }
{
    match noise {
        Some(noise) => Some(Countdown::of(noise)),
        None => None,
    }
}

// The rounds of a line that states rounds.
fn line_of_rounds<'a>(kept: &'a [Step], rounds: &'a Rounds) -> Line<'a>
    requires { IsRounds kept.now rounds.now }
    ensures keeps { IfSome result.noise IsCountdown }
    ensures steps { noisy_if (noise_left result.noise) (repeated result.count result.round.now)
        ≡ stretch_of kept.now (stretch.Many rounds.now) }
    ensures count { result.count ≡ rounds.now.count }
{
    let round = rounds.round;
    Line {
        round: &kept[round.start..round.start + round.len],
        count: rounds.count,
        noise: countdown_of(rounds.noise),
    }
}

// The rounds of a line.
fn line_of<'a>(kept: &'a [Step], many: &'a [Rounds], held: &'a Held) -> Line<'a>
    requires { IsHeld (kept_of kept.now many.now) held.now }
    ensures keeps { IfSome result.noise IsCountdown }
    ensures steps { noisy_if (noise_left result.noise) (repeated result.count result.round.now)
        ≡ held_steps (kept_of kept.now many.now) held.now }
    ensures count { result.count ≡ count_of many.now held.now }
{
    match held {
        Held::One(step) => Line {
            round: slice::from_ref(step),
            count: 1,
            noise: None,
        },
        Held::Many(place) => line_of_rounds(kept, &many[*place as usize]),
    }
}

impl<'a> RoundsLeft<'a> {
    /// All rounds of these segments.
    pub(crate) fn of(
        kept: &'a [Step],
        many: &'a [Rounds],
        segments: &'a [Segment],
    ) -> RoundsLeft<'a>
        requires { All (λ segment. IsHeld (kept_of kept.now many.now) segment.held) segments.now }
        ensures { steps_left result [] ≡ steps_in (kept_of kept.now many.now) segments.now }
    {
        RoundsLeft {
            kept,
            many,
            segments,
            round: &kept[..0],
            count: 0,
            noise: None,
        }
    }

    /// The next round, without its noise. `None` where no step is left.
    pub fn next(&mut self) -> Option<&'a [Step]>
        ensures some { IfSome result
            (λ round. steps_left self.old [] ≡ steps_left self.new round.now) }
        ensures none { IfNone result (steps_left self.old [] ≡ []) }
        ensures ended { IfNone result (steps_left self.new [] ≡ []) }
        ensures fewer { IfSome result (λ _. self.new.rounds < self.old.rounds) }
    {
        'lines: while self.count == 0 {
            let [segment, later @ ..] = self.segments else {
                return None;
            };
            let line = line_of(self.kept, self.many, &segment.held);
            self.segments = later;
            self.round = line.round;
            self.count = line.count;
            self.noise = line.noise;
        }
        self.count -= 1;
        Some(self.round)
    }

    /// The step of the round at hand that comes next in it, under the round's noise.
    #[inline(always)]
    pub fn due(&mut self, step: Step) -> Step
        ensures step { (rest : List Step) →
            steps_left self.old (step ∷ rest) ≡ result ∷ steps_left self.new rest }
        ensures rounds { self.new.rounds ≡ self.old.rounds }
    {
        under(&mut self.noise, step)
    }
}
