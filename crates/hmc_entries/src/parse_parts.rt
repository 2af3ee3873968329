//! What several words of an entry line are read as: a unit, an outcome, an answer, a step.

ghost use Rattle.std.specs.Prelude.{◌≡◌, IfSome};
ghost use Rattle.hmc_words.specs.Taking.{Takes, take_number};
ghost use Rattle.hmc_entries.specs.Parse.{CanBeShown, HasNoMask};
ghost use Rattle.hmc_entries.specs.ParseParts.{take_bank, take_unit, outcome_among, outcome_in, done_in, read_in, register_in, refused_in, answer_after, answer_in, numbered_step, pair_step, take_bank_step, take_lift_step, take_pair_step, take_long_step, take_step};

use crate::parse_words::{byte_of, flag_of, lift_of, outcome_named, returned_of, value_of};
use hmc_codes::{Answer, Unit, ZERO_FLIT};
use hmc_packet::{Bad, Kind, Outcome};
use hmc_schedule::Step;
use hmc_words::WordReader;

/// Small numbers are below this.
const BYTES: u64 = 256;

/// The errors that a response can carry are below this.
const ERRORS: u64 = 128;

/// A number below 256.
pub fn take_byte(words: &mut WordReader) -> Option<u8>
    ensures { Takes (λ number. number) result words.new (take_number 256 words.old) }
{
    let number = words.number(BYTES)?;
    Some(number as u8)
}

#[tactic(auto, unfolding(crate::specs::ParseParts::take_bank))]
fn take_bank(words: &mut WordReader, cube: u8, word: &[u8]) -> Option<Unit>
    ensures { Takes (λ unit. unit) result words.new (take_bank cube word.now words.old) }
{
    let vault = byte_of(word)?;
    let bank = take_byte(words)?;
    Some(Unit::Bank { cube, vault, bank })
}

/// A unit: the cube, and then a vault and a bank, or `r` for the registers.
#[tactic(auto, unfolding(crate::specs::ParseParts::take_unit))]
pub fn take_unit(words: &mut WordReader) -> Option<Unit>
    ensures { Takes (λ unit. unit) result words.new (take_unit words.old) }
{
    let cube = take_byte(words)?;
    let word = words.word()?;
    if word == b"r".as_slice() {
        return Some(Unit::Registers { cube });
    }
    take_bank(words, cube, word)
}

#[tactic(auto, unfolding(crate::specs::ParseParts::outcome_among))]
fn outcome_among(words: &mut WordReader, outcomes: &[Outcome]) -> Option<Outcome>
    ensures { result ≡ outcome_among outcomes.now words.old }
{
    let word = words.word()?;
    outcome_named(outcomes, word)
}

/// An outcome, of one word or two.
#[tactic(auto, unfolding(crate::specs::ParseParts::outcome_in))]
pub fn outcome_in(words: &mut WordReader) -> Option<Outcome>
    ensures { result ≡ outcome_in words.old }
{
    let word = words.word()?;
    if word == b"aborted".as_slice() {
        let outcomes = [
            Outcome::AbortedBad(Bad::Length),
            Outcome::AbortedBad(Bad::Command),
            Outcome::AbortedBad(Bad::Reserved),
            Outcome::AbortedBad(Bad::Crc),
            Outcome::AbortedOrder,
        ];
        return outcome_among(words, &outcomes);
    }
    if word == b"ran".as_slice() {
        let outcomes = [Outcome::Ran(Kind::Start), Outcome::Ran(Kind::Clear)];
        return outcome_among(words, &outcomes);
    }
    let outcomes = [
        Outcome::Quiet,
        Outcome::Trained,
        Outcome::Gathered,
        Outcome::Accepted,
        Outcome::Poisoned,
        Outcome::Repeat,
    ];
    outcome_named(&outcomes, word)
}

#[tactic(auto, unfolding(crate::specs::ParseParts::done_in))]
fn done_in(words: &mut WordReader) -> Option<Answer>
    ensures value { result ≡ done_in words.old }
    ensures shown { IfSome result CanBeShown }
{
    let word = words.word()?;
    let flag = flag_of(word)?;
    Some(Answer::Done { flag })
}

#[tactic(auto, unfolding(crate::specs::ParseParts::read_in))]
fn read_in(words: &mut WordReader) -> Option<Answer>
    ensures value { result ≡ read_in words.old }
    ensures shown { IfSome result CanBeShown }
{
    let word = words.word()?;
    let flag = flag_of(word)?;
    let word = words.word()?;
    let payload = returned_of(word)?;
    Some(Answer::Read { flag, payload })
}

#[tactic(auto, unfolding(crate::specs::ParseParts::register_in))]
fn register_in(words: &mut WordReader) -> Option<Answer>
    ensures value { result ≡ register_in words.old }
    ensures shown { IfSome result CanBeShown }
{
    let word = words.word()?;
    let value = value_of(word)?;
    Some(Answer::Register { value })
}

#[tactic(auto, unfolding(crate::specs::ParseParts::refused_in))]
fn refused_in(words: &mut WordReader) -> Option<Answer>
    ensures value { result ≡ refused_in words.old }
    ensures shown { IfSome result CanBeShown }
{
    let errstat = words.number(ERRORS)? as u8;
    Some(Answer::Refused { errstat })
}

#[tactic(auto, unfolding(crate::specs::ParseParts::answer_after))]
fn answer_after(words: &mut WordReader, word: &[u8]) -> Option<Answer>
    ensures value { result ≡ answer_after word.now words.old }
    ensures shown { IfSome result CanBeShown }
{
    if word == b"silent".as_slice() {
        return Some(Answer::Silent);
    }
    if word == b"stored".as_slice() {
        return Some(Answer::Stored);
    }
    if word == b"done".as_slice() {
        return done_in(words);
    }
    if word == b"read".as_slice() {
        return read_in(words);
    }
    if word == b"register".as_slice() {
        return register_in(words);
    }
    if word == b"error".as_slice() {
        return refused_in(words);
    }
    None
}

/// An answer that an entry can show.
#[tactic(auto, unfolding(crate::specs::ParseParts::answer_in))]
pub fn answer_in(words: &mut WordReader) -> Option<Answer>
    ensures value { result ≡ answer_in words.old }
    ensures shown { IfSome result CanBeShown }
{
    let word = words.word()?;
    answer_after(words, word)
}

#[tactic(auto, unfolding(crate::specs::ParseParts::numbered_step, hmc_codes::specs::Flit::zero_flit))]
fn numbered_step(word: &[u8], number: u8) -> Option<Step>
    ensures value { result ≡ numbered_step word.now number }
    ensures shown { IfSome result HasNoMask }
{
    if word == b"give".as_slice() {
        return Some(Step::Give(number));
    }
    if word == b"send".as_slice() {
        return Some(Step::Send(number));
    }
    if word == b"land".as_slice() {
        return Some(Step::Land(number, ZERO_FLIT));
    }
    if word == b"registers".as_slice() {
        return Some(Step::Registers(number));
    }
    if word == b"take".as_slice() {
        return Some(Step::Take(number));
    }
    if word == b"unlock".as_slice() {
        return Some(Step::Unlock(number));
    }
    if word == b"retire".as_slice() {
        return Some(Step::Retire(number));
    }
    None
}

#[tactic(auto, unfolding(crate::specs::ParseParts::pair_step))]
fn pair_step(word: &[u8], first: u8, second: u8) -> Option<Step>
    ensures value { result ≡ pair_step word.now first second }
    ensures shown { IfSome result HasNoMask }
{
    if word == b"shift".as_slice() {
        return Some(Step::Shift(first, second));
    }
    if word == b"spread".as_slice() {
        return Some(Step::Spread(first, second));
    }
    if word == b"through".as_slice() {
        return Some(Step::Through(first, second));
    }
    None
}

#[tactic(auto, unfolding(crate::specs::ParseParts::take_bank_step))]
fn take_bank_step(words: &mut WordReader, cube: u8) -> Option<Step>
    ensures value { Takes (λ step. step) result words.new (take_bank_step cube words.old) }
    ensures shown { IfSome result HasNoMask }
{
    let vault = take_byte(words)?;
    let bank = take_byte(words)?;
    Some(Step::Bank(cube, vault, bank))
}

#[tactic(auto, unfolding(crate::specs::ParseParts::take_lift_step))]
fn take_lift_step(words: &mut WordReader, cube: u8) -> Option<Step>
    ensures value { Takes (λ step. step) result words.new (take_lift_step cube words.old) }
    ensures shown { IfSome result HasNoMask }
{
    let word = words.word()?;
    let from = lift_of(word)?;
    Some(Step::Lift(cube, from))
}

#[tactic(auto, unfolding(crate::specs::ParseParts::take_pair_step))]
fn take_pair_step(words: &mut WordReader, word: &[u8], first: u8) -> Option<Step>
    ensures value { Takes (λ step. step) result words.new
        (take_pair_step word.now first words.old) }
    ensures shown { IfSome result HasNoMask }
{
    let second = take_byte(words)?;
    pair_step(word, first, second)
}

#[tactic(auto, unfolding(crate::specs::ParseParts::take_long_step))]
fn take_long_step(words: &mut WordReader, word: &[u8], number: u8) -> Option<Step>
    ensures value { Takes (λ step. step) result words.new
        (take_long_step word.now number words.old) }
    ensures shown { IfSome result HasNoMask }
{
    if word == b"bank".as_slice() {
        return take_bank_step(words, number);
    }
    if word == b"lift".as_slice() {
        return take_lift_step(words, number);
    }
    take_pair_step(words, word, number)
}

/// A step, whose mask isn't written: it is read as zero.
#[tactic(auto, unfolding(crate::specs::ParseParts::take_step))]
pub fn take_step(words: &mut WordReader) -> Option<Step>
    ensures value { Takes (λ step. step) result words.new (take_step words.old) }
    ensures shown { IfSome result HasNoMask }
{
    let word = words.word()?;
    let number = take_byte(words)?;
    match numbered_step(word, number) {
        Some(step) => Some(step),
        None => take_long_step(words, word, number),
    }
}
