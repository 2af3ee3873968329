//! What single words of an entry line are read as. Whoever reads a line compares it with the
//! printed one afterwards, so that leading zeros and digits in upper case may pass here.

ghost use Rattle.std.specs.Prelude.{◌≡◌, ◌≤◌, true, length, IfSome, IsTrue};
ghost use Rattle.hmc_codes.specs.Answer.{is_returned};
ghost use Rattle.hmc_entries.specs.Lines.{what_text, cause_text};
ghost use Rattle.hmc_entries.specs.ParseWords.{byte_of, flit_of, tag_of, what_of, cause_named, last_word, outcome_named, registers_goal, goal_of, port_of, lift_of, flag_of, returned_of, value_of};

use crate::{Cause, Goal};
use hex::FromHex;
use hmc_codes::{Flit, Lift, Payload};
use hmc_packet::{Bad, Kind, Outcome, What};
use hmc_script::hex_payload;
use hmc_text::number::below;

/// Small numbers are below this.
const BYTES: u64 = 256;

/// Tags fit 16 bits.
const TAGS: u64 = 1 << 16;

const WHATS: [What; 8] = [
    What::Train,
    What::Clear,
    What::Start,
    What::Null,
    What::Pret,
    What::Tret,
    What::New,
    What::Again,
];

const CAUSES: [Cause; 8] = [
    Cause::Ended,
    Cause::Fence,
    Cause::Tags,
    Cause::Empty,
    Cause::Full,
    Cause::Starved,
    Cause::NoPacket,
    Cause::Busy,
];

/// A number below 256.
pub fn byte_of(word: &[u8]) -> Option<u8>
    ensures { result ≡ byte_of word.now }
{
    let number = below(BYTES, word)?;
    Some(number as u8)
}

/// A flit of 32 digits.
#[tactic(auto, unfolding(crate::specs::ParseWords::flit_of))]
pub fn flit_of(word: &[u8]) -> Option<Flit>
    ensures { result ≡ flit_of word.now }
{
    <[u8; 16]>::from_hex(word).ok()
}

/// A tag, or a dash for none.
#[tactic(auto, unfolding(crate::specs::ParseWords::tag_of))]
pub fn tag_of(word: &[u8]) -> Option<Option<u16>>
    ensures { result ≡ tag_of word.now }
{
    if word == b"-".as_slice() {
        return Some(None);
    }
    let tag = below(TAGS, word)?;
    Some(Some(tag as u16))
}

fn what_word(what: What) -> &'static str
    ensures { result.now ≡ what_text what }
{
    match what {
        What::Train => "train",
        What::Clear => "clear",
        What::Start => "start",
        What::Null => "null",
        What::Pret => "pret",
        What::Tret => "tret",
        What::New => "new",
        What::Again => "again",
    }
}

/// What a flit is sent as.
#[tactic(auto, unfolding(crate::specs::ParseWords::what_of, crate::specs::ParseWords::whats))]
pub fn what_of(word: &[u8]) -> Option<What>
    ensures { result ≡ what_of word.now }
{
    WHATS
        .iter()
        .copied()
        .find(|what| what_word(*what).as_bytes() == word)
}

fn cause_word(cause: Cause) -> &'static str
    ensures { result.now ≡ cause_text cause }
{
    match cause {
        Cause::Ended => "ended",
        Cause::Fence => "fence",
        Cause::Tags => "tags",
        Cause::Empty => "empty",
        Cause::Full => "full",
        Cause::Starved => "starved",
        Cause::NoPacket => "nopacket",
        Cause::Busy => "busy",
    }
}

/// Why a step did nothing.
#[tactic(auto, unfolding(crate::specs::ParseWords::cause_named, crate::specs::ParseWords::causes_known))]
pub fn cause_named(word: &[u8]) -> Option<Cause>
    ensures { result ≡ cause_named word.now }
{
    CAUSES
        .iter()
        .copied()
        .find(|cause| cause_word(*cause).as_bytes() == word)
}

fn last_word(outcome: Outcome) -> &'static str
    ensures { result.now ≡ last_word outcome }
{
    match outcome {
        Outcome::Quiet => "quiet",
        Outcome::Trained => "trained",
        Outcome::Gathered => "gathered",
        Outcome::Accepted => "accepted",
        Outcome::Poisoned => "poisoned",
        Outcome::Repeat => "repeat",
        Outcome::AbortedBad(Bad::Length) => "length",
        Outcome::AbortedBad(Bad::Command) => "command",
        Outcome::AbortedBad(Bad::Reserved) => "reserved",
        Outcome::AbortedBad(Bad::Crc) => "crc",
        Outcome::AbortedOrder => "order",
        Outcome::Ran(Kind::Start) => "start",
        Outcome::Ran(Kind::Clear) => "clear",
    }
}

/// The one of these outcomes that has this last word.
#[tactic(auto, unfolding(crate::specs::ParseWords::outcome_named))]
pub fn outcome_named(outcomes: &[Outcome], word: &[u8]) -> Option<Outcome>
    ensures { result ≡ outcome_named outcomes.now word.now }
{
    outcomes
        .iter()
        .copied()
        .find(|outcome| last_word(*outcome).as_bytes() == word)
}

fn registers_goal(word: &[u8]) -> Option<Goal>
    ensures { result ≡ registers_goal word.now }
{
    if word == b"r".as_slice() {
        Some(Goal::Registers)
    } else {
        None
    }
}

/// Where a packet went.
#[tactic(auto, unfolding(crate::specs::ParseWords::goal_of))]
pub fn goal_of(word: &[u8]) -> Option<Goal>
    ensures { result ≡ goal_of word.now }
{
    match word {
        [b'v', digits @ ..] => {
            let vault = byte_of(digits)?;
            Some(Goal::Vault(vault))
        }
        [b'p', digits @ ..] => {
            let port = byte_of(digits)?;
            Some(Goal::Port(port))
        }
        _ => registers_goal(word),
    }
}

/// A port, after the letter `p`.
#[tactic(auto, unfolding(crate::specs::ParseWords::port_of))]
pub fn port_of(word: &[u8]) -> Option<u8>
    ensures { result ≡ port_of word.now }
{
    match word {
        [b'p', digits @ ..] => byte_of(digits),
        _ => None,
    }
}

/// Where an answer came from.
#[tactic(auto, unfolding(crate::specs::ParseWords::lift_of))]
pub fn lift_of(word: &[u8]) -> Option<Lift>
    ensures { result ≡ lift_of word.now }
{
    if word == b"r".as_slice() {
        return Some(Lift::Registers);
    }
    let vault = byte_of(word)?;
    Some(Lift::Vault(vault))
}

/// A flag, 0 or 1.
#[tactic(auto, unfolding(crate::specs::ParseWords::flag_of))]
pub fn flag_of(word: &[u8]) -> Option<bool>
    ensures { result ≡ flag_of word.now }
{
    if word == b"1".as_slice() {
        return Some(true);
    }
    if word == b"0".as_slice() {
        return Some(false);
    }
    None
}

// Whether a response can carry this number of bytes.
fn is_returned(bytes: usize) -> bool
    ensures value { result ≡ is_returned bytes }
    ensures few { IsTrue result → bytes ≤ 256 }
{
    (bytes % 16 == 0 && (16 <= bytes && bytes <= 128)) || bytes == 256
}

/// The bytes of an answer to a read, two digits for each: as many as a response can carry.
#[tactic(auto, unfolding(crate::specs::ParseWords::returned_of))]
pub fn returned_of(word: &[u8]) -> Option<Payload>
    ensures value { result ≡ returned_of word.now }
    ensures fits { IfSome result (λ payload. is_returned (length payload) ≡ true) }
{
    let len = word.len() / 2;
    if is_returned(len) {
        hex_payload(len, word)
    } else {
        None
    }
}

/// The value of a register, of eight digits.
#[tactic(auto, unfolding(crate::specs::ParseWords::value_of))]
pub fn value_of(word: &[u8]) -> Option<u32>
    ensures { result ≡ value_of word.now }
{
    let bytes = <[u8; 4]>::from_hex(word).ok()?;
    Some(u32::from_be_bytes(bytes))
}
