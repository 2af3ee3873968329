//! What a line of a schedule states.

ghost use Rattle.std.specs.Prelude.{◌≡◌, IfOk};
ghost use Rattle.hmc_text.specs.Reading.{Gives};
ghost use Rattle.hmc_text.specs.Words.{words_of};
ghost use Rattle.hmc_schedule.specs.Meaning.{numbered_step, port_step, land_of, spread_of, bank_of, lift_of, step_of, one_of, rounds_meaning, noise_end, noise_begin, noise_meaning, noise_or_one, statement_of, meaning_of, IsMeaning};
ghost use Rattle.hmc_schedule.specs.Plan.{PlanFields, IsStepOf, HasFlit};

use crate::noise::Noise;
use crate::operands::{
    count_word, due_mask, index_word, lift_word, mask_words, port_words, vault_words,
};
use crate::verb::{Verb, verb_of};
use crate::{Plan, ScheduleKind, Step};
use hmc_text::reading::{next_word, no_word};
use hmc_text::words::is_passed_over;

/// What a line states.
#[derive(Clone, Copy)]
pub enum Meaning {
    /// Nothing: it has no word, or it is a comment.
    Nothing,
    /// One step.
    One(Step),
    /// A number of rounds.
    Rounds(u32),
    /// From here on rounds have this noise, or none.
    Noisy(Option<Noise>),
}

/// The slots of logic units.
const SLOTS: u8 = 8;

#[tactic(auto, unfolding(crate::specs::Meaning::land_of))]
fn land<'a>(plan: &Plan, line: &'a [u8]) -> Result<(Step, &'a [u8]), ScheduleKind>
    ensures value { Gives (λ p. (p.0, words_of p.1.now)) result
        (land_of plan.now (words_of line.now)) }
    ensures within { IfOk result (λ p. IsStepOf plan.now p.0) }
    ensures mask { IfOk result (λ p. HasFlit p.0) }
{
    let (direction, rest) = index_word(plan.directions, line)?;
    let (mask, rest) = mask_words(rest)?;
    Ok((Step::Land(direction, mask), rest))
}

#[tactic(auto, unfolding(crate::specs::Meaning::port_step))]
fn shift<'a>(plan: &Plan, line: &'a [u8]) -> Result<(Step, &'a [u8]), ScheduleKind>
    ensures value { Gives (λ p. (p.0, words_of p.1.now)) result
        (port_step Step.Shift plan.now (words_of line.now)) }
    ensures within { IfOk result (λ p. IsStepOf plan.now p.0) }
    ensures mask { IfOk result (λ p. HasFlit p.0) }
{
    let (cube, port, rest) = port_words(plan, line)?;
    Ok((Step::Shift(cube, port), rest))
}

#[tactic(auto, unfolding(crate::specs::Meaning::port_step))]
fn through<'a>(plan: &Plan, line: &'a [u8]) -> Result<(Step, &'a [u8]), ScheduleKind>
    ensures value { Gives (λ p. (p.0, words_of p.1.now)) result
        (port_step Step.Through plan.now (words_of line.now)) }
    ensures within { IfOk result (λ p. IsStepOf plan.now p.0) }
    ensures mask { IfOk result (λ p. HasFlit p.0) }
{
    let (cube, port, rest) = port_words(plan, line)?;
    Ok((Step::Through(cube, port), rest))
}

#[tactic(auto, unfolding(crate::specs::Meaning::spread_of))]
fn spread<'a>(plan: &Plan, line: &'a [u8]) -> Result<(Step, &'a [u8]), ScheduleKind>
    ensures value { Gives (λ p. (p.0, words_of p.1.now)) result
        (spread_of plan.now (words_of line.now)) }
    ensures within { IfOk result (λ p. IsStepOf plan.now p.0) }
    ensures mask { IfOk result (λ p. HasFlit p.0) }
{
    let (cube, vault, rest) = vault_words(plan, line)?;
    Ok((Step::Spread(cube, vault), rest))
}

#[tactic(auto, unfolding(crate::specs::Meaning::bank_of))]
fn bank<'a>(plan: &Plan, line: &'a [u8]) -> Result<(Step, &'a [u8]), ScheduleKind>
    ensures value { Gives (λ p. (p.0, words_of p.1.now)) result
        (bank_of plan.now (words_of line.now)) }
    ensures within { IfOk result (λ p. IsStepOf plan.now p.0) }
    ensures mask { IfOk result (λ p. HasFlit p.0) }
{
    let (cube, vault, rest) = vault_words(plan, line)?;
    let (bank, rest) = index_word(plan.banks(cube), rest)?;
    Ok((Step::Bank(cube, vault, bank), rest))
}

#[tactic(auto, unfolding(crate::specs::Meaning::lift_of))]
fn lift<'a>(plan: &Plan, line: &'a [u8]) -> Result<(Step, &'a [u8]), ScheduleKind>
    ensures value { Gives (λ p. (p.0, words_of p.1.now)) result
        (lift_of plan.now (words_of line.now)) }
    ensures within { IfOk result (λ p. IsStepOf plan.now p.0) }
    ensures mask { IfOk result (λ p. HasFlit p.0) }
{
    let (cube, rest) = index_word(plan.cube_count(), line)?;
    let (lift, rest) = lift_word(plan.vaults(cube), rest)?;
    Ok((Step::Lift(cube, lift), rest))
}

// A step of this kind, and the rest of the line.
#[tactic(auto, unfolding(crate::specs::Meaning::step_of, crate::specs::Meaning::numbered_step))]
fn step<'a>(plan: &Plan, verb: Verb, line: &'a [u8]) -> Result<(Step, &'a [u8]), ScheduleKind>
    ensures value { Gives (λ p. (p.0, words_of p.1.now)) result
        (step_of plan.now verb (words_of line.now)) }
    ensures within { IfOk result (λ p. IsStepOf plan.now p.0) }
    ensures mask { IfOk result (λ p. HasFlit p.0) }
{
    match verb {
        Verb::Give => {
            let (host, rest) = index_word(plan.hosts, line)?;
            Ok((Step::Give(host), rest))
        }
        Verb::Send => {
            let (direction, rest) = index_word(plan.directions, line)?;
            Ok((Step::Send(direction), rest))
        }
        Verb::Land => land(plan, line),
        Verb::Shift => shift(plan, line),
        Verb::Spread => spread(plan, line),
        Verb::Bank => bank(plan, line),
        Verb::Registers => {
            let (cube, rest) = index_word(plan.cube_count(), line)?;
            Ok((Step::Registers(cube), rest))
        }
        Verb::Lift => lift(plan, line),
        Verb::Take => {
            let (host, rest) = index_word(plan.hosts, line)?;
            Ok((Step::Take(host), rest))
        }
        Verb::Through => through(plan, line),
        Verb::Unlock => {
            let (direction, rest) = index_word(plan.directions, line)?;
            Ok((Step::Unlock(direction), rest))
        }
        Verb::Retire => {
            let (slot, rest) = index_word(SLOTS, line)?;
            Ok((Step::Retire(slot), rest))
        }
    }
}

// One step, after which no word follows.
#[tactic(auto, unfolding(crate::specs::Meaning::one_of))]
fn one(plan: &Plan, first: &[u8], line: &[u8]) -> Result<Meaning, ScheduleKind>
    ensures value { result ≡ one_of plan.now first.now (words_of line.now) }
    ensures works { IfOk result (IsMeaning plan.now) }
{
    let Some(verb) = verb_of(first) else {
        return Err(ScheduleKind::Step);
    };
    let (step, rest) = step(plan, verb, line)?;
    no_word(ScheduleKind::Words, rest)?;
    Ok(Meaning::One(step))
}

// Some rounds, after which no word follows.
#[tactic(auto, unfolding(crate::specs::Meaning::rounds_meaning))]
fn rounds(line: &[u8]) -> Result<Meaning, ScheduleKind>
    ensures value { result ≡ rounds_meaning (words_of line.now) }
    ensures works { (plan : PlanFields) → IfOk result (IsMeaning plan) }
{
    let (count, rest) = count_word(line)?;
    no_word(ScheduleKind::Words, rest)?;
    Ok(Meaning::Rounds(count))
}

// The end of noise, after which no word follows.
#[tactic(auto, unfolding(crate::specs::Meaning::noise_end))]
fn noise_end(line: &[u8]) -> Result<Meaning, ScheduleKind>
    ensures value { result ≡ noise_end (words_of line.now) }
    ensures works { (plan : PlanFields) → IfOk result (IsMeaning plan) }
{
    no_word(ScheduleKind::Words, line)?;
    Ok(Meaning::Noisy(None))
}

// Noise that begins: its number and its mask, after which no word follows.
#[tactic(auto, unfolding(crate::specs::Meaning::noise_begin))]
fn noise_begin(line: &[u8]) -> Result<Meaning, ScheduleKind>
    ensures value { result ≡ noise_begin (words_of line.now) }
    ensures works { (plan : PlanFields) → IfOk result (IsMeaning plan) }
{
    let (every, rest) = count_word(line)?;
    let (mask, rest) = due_mask(rest)?;
    no_word(ScheduleKind::Words, rest)?;
    let count = 0;
    Ok(Meaning::Noisy(Some(Noise { every, mask, count })))
}

#[tactic(auto, unfolding(crate::specs::Meaning::noise_meaning))]
fn noise_meaning(line: &[u8]) -> Result<Meaning, ScheduleKind>
    ensures value { result ≡ noise_meaning (words_of line.now) }
    ensures works { (plan : PlanFields) → IfOk result (IsMeaning plan) }
{
    let (first, rest) = next_word(ScheduleKind::Words, line)?;
    if first == b"off".as_slice() {
        return noise_end(rest);
    }
    noise_begin(line)
}

#[tactic(auto, unfolding(crate::specs::Meaning::noise_or_one))]
fn noise_or_one(plan: &Plan, first: &[u8], line: &[u8]) -> Result<Meaning, ScheduleKind>
    ensures value { result ≡ noise_or_one plan.now first.now (words_of line.now) }
    ensures works { IfOk result (IsMeaning plan.now) }
{
    if first == b"noise".as_slice() {
        return noise_meaning(line);
    }
    one(plan, first, line)
}

#[tactic(auto, unfolding(crate::specs::Meaning::statement_of))]
fn statement(plan: &Plan, line: &[u8]) -> Result<Meaning, ScheduleKind>
    ensures value { result ≡ statement_of plan.now (words_of line.now) }
    ensures works { IfOk result (IsMeaning plan.now) }
{
    let (first, rest) = next_word(ScheduleKind::Words, line)?;
    if first == b"round".as_slice() {
        return rounds(rest);
    }
    noise_or_one(plan, first, rest)
}

/// What a line states, word by word from left to right. The fault is the first one.
#[tactic(auto, unfolding(crate::specs::Meaning::meaning_of))]
pub fn meaning_of(plan: &Plan, line: &[u8]) -> Result<Meaning, ScheduleKind>
    ensures value { result ≡ meaning_of plan.now (words_of line.now) }
    ensures works { IfOk result (IsMeaning plan.now) }
{
    if is_passed_over(line) {
        return Ok(Meaning::Nothing);
    }
    statement(plan, line)
}
