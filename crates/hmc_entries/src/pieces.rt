//! The pieces of lines: each appends a word with the space before it.

ghost use Rattle.std.specs.Prelude.{◌≡◌, ◌≤◌, ◌+◌, ◌∷◌, [], ◌++◌, length};
ghost use Rattle.std.specs.Fmt.{decimal};
ghost use Rattle.hex.specs.Hex.{encode_lower};
ghost use Rattle.hmc_codes.specs.Text.{line};
ghost use Rattle.hmc_entries.specs.Lines.{tag_text, request_words, unit_text, what_text, outcome_text, bad_text, goal_text, lift_text, cause_text};

use crate::{Cause, Goal};
use arrayvec::ArrayString;
use hmc_codes::{
    Flit, Lift, Request, Unit, append_decimal, append_sixteen, append_spaced, spaced_digit,
};
use hmc_packet::{Bad, Kind, Outcome, What, is_null};

pub(crate) fn push_tag<const N: usize>(into: &mut ArrayString<N>, tag: Option<u16>)
    requires room { length into.old.bytes + 21 ≤ N }
    ensures text { into.new.bytes ≡ into.old.bytes ++ (32 ∷ tag_text tag) }
    ensures few { length into.new.bytes ≤ length into.old.bytes + 21 }
{
    match tag {
        Some(tag) => append_spaced(into, u64::from(tag)),
        None => into.push_str(" -"),
    }
}

pub(crate) fn push_unit<const N: usize>(into: &mut ArrayString<N>, unit: Unit)
    requires room { length into.old.bytes + 63 ≤ N }
    ensures text { into.new.bytes ≡ into.old.bytes ++ (32 ∷ unit_text unit) }
    ensures few { length into.new.bytes ≤ length into.old.bytes + 63 }
{
    match unit {
        Unit::Bank { cube, vault, bank } => {
            append_spaced(into, u64::from(cube));
            append_spaced(into, u64::from(vault));
            append_spaced(into, u64::from(bank));
        }
        Unit::Registers { cube } => {
            append_spaced(into, u64::from(cube));
            into.push_str(" r");
        }
    }
}

#[inline(always)]
pub(crate) fn push_lift<const N: usize>(into: &mut ArrayString<N>, from: Lift)
    requires room { length into.old.bytes + 21 ≤ N }
    ensures text { into.new.bytes ≡ into.old.bytes ++ (32 ∷ lift_text from) }
    ensures few { length into.new.bytes ≤ length into.old.bytes + 21 }
{
    match from {
        Lift::Vault(vault) => append_spaced(into, u64::from(vault)),
        Lift::Registers => into.push_str(" r"),
    }
}

pub(crate) fn push_goal<const N: usize>(into: &mut ArrayString<N>, goal: Goal)
    requires room { length into.old.bytes + 22 ≤ N }
    ensures text { into.new.bytes ≡ into.old.bytes ++ (32 ∷ goal_text goal) }
    ensures few { length into.new.bytes ≤ length into.old.bytes + 22 }
{
    match goal {
        Goal::Vault(vault) => {
            into.push_str(" v");
            append_decimal(into, u64::from(vault));
        }
        Goal::Registers => into.push_str(" r"),
        Goal::Port(port) => {
            into.push_str(" p");
            append_decimal(into, u64::from(port));
        }
    }
}

// Most flits are NULLs, whose digits are known.
#[inline(always)]
pub(crate) fn push_flit<const N: usize>(into: &mut ArrayString<N>, flit: &Flit)
    requires room { length into.old.bytes + 33 ≤ N }
    ensures text { into.new.bytes ≡ into.old.bytes ++ (32 ∷ encode_lower flit.now) }
    ensures len { length into.new.bytes ≡ length into.old.bytes + 33 }
{
    if is_null(flit) {
        into.push_str(" 00000000000000000000000000000000");
    } else {
        into.push_str(" ");
        append_sixteen(into, flit);
    }
}

#[inline(always)]
pub(crate) fn push_what<const N: usize>(into: &mut ArrayString<N>, what: What)
    requires room { length into.old.bytes + 6 ≤ N }
    ensures text { into.new.bytes ≡ into.old.bytes ++ (32 ∷ what_text what) }
    ensures few { length into.new.bytes ≤ length into.old.bytes + 6 }
{
    match what {
        What::Train => into.push_str(" train"),
        What::Clear => into.push_str(" clear"),
        What::Start => into.push_str(" start"),
        What::Null => into.push_str(" null"),
        What::Pret => into.push_str(" pret"),
        What::Tret => into.push_str(" tret"),
        What::New => into.push_str(" new"),
        What::Again => into.push_str(" again"),
    }
}

// The outcome ends the line.
#[inline(always)]
pub(crate) fn push_outcome<const N: usize>(into: &mut ArrayString<N>, outcome: Outcome)
    requires room { length into.old.bytes + 18 ≤ N }
    ensures text { into.new.bytes ≡ into.old.bytes ++ (32 ∷ (outcome_text outcome ++ (10 ∷ []))) }
    ensures few { length into.new.bytes ≤ length into.old.bytes + 18 }
{
    match outcome {
        Outcome::Quiet => into.push_str(" quiet\n"),
        Outcome::Trained => into.push_str(" trained\n"),
        Outcome::Gathered => into.push_str(" gathered\n"),
        Outcome::Accepted => into.push_str(" accepted\n"),
        Outcome::Poisoned => into.push_str(" poisoned\n"),
        Outcome::Repeat => into.push_str(" repeat\n"),
        Outcome::AbortedBad(bad) => push_aborted(into, bad),
        Outcome::AbortedOrder => into.push_str(" aborted order\n"),
        Outcome::Ran(Kind::Start) => into.push_str(" ran start\n"),
        Outcome::Ran(Kind::Clear) => into.push_str(" ran clear\n"),
    }
}

pub(crate) fn push_aborted<const N: usize>(into: &mut ArrayString<N>, bad: Bad)
    requires room { length into.old.bytes + 18 ≤ N }
    ensures text { into.new.bytes ≡ into.old.bytes ++ (32 ∷ (bad_text bad ++ (10 ∷ []))) }
    ensures few { length into.new.bytes ≤ length into.old.bytes + 18 }
{
    match bad {
        Bad::Length => into.push_str(" aborted length\n"),
        Bad::Command => into.push_str(" aborted command\n"),
        Bad::Reserved => into.push_str(" aborted reserved\n"),
        Bad::Crc => into.push_str(" aborted crc\n"),
    }
}

// The cause ends the line.
#[inline(always)]
pub(crate) fn push_cause<const N: usize>(into: &mut ArrayString<N>, cause: Cause)
    requires room { length into.old.bytes + 10 ≤ N }
    ensures text { into.new.bytes ≡ into.old.bytes ++ (32 ∷ (cause_text cause ++ (10 ∷ []))) }
    ensures few { length into.new.bytes ≤ length into.old.bytes + 10 }
{
    match cause {
        Cause::Ended => into.push_str(" ended\n"),
        Cause::Fence => into.push_str(" fence\n"),
        Cause::Tags => into.push_str(" tags\n"),
        Cause::Empty => into.push_str(" empty\n"),
        Cause::Full => into.push_str(" full\n"),
        Cause::Starved => into.push_str(" starved\n"),
        Cause::NoPacket => into.push_str(" nopacket\n"),
        Cause::Busy => into.push_str(" busy\n"),
    }
}

// The request ends the line.
pub(crate) fn push_request_end<const N: usize>(
    into: &mut ArrayString<N>,
    poisoned: bool,
    request: &Request,
)
    requires room { length into.old.bytes + 571 ≤ N }
    ensures text { into.new.bytes ≡
        into.old.bytes ++ (32 ∷ line (request_words poisoned request.now)) }
    ensures few { length into.new.bytes ≤ length into.old.bytes + 571 }
{
    if poisoned {
        into.push_str(" poison");
    }
    into.push_str(" ");
    request.print(into);
    into.push_str("\n");
}

// A space and a number. Most numbers have one digit: others stand out of line.
#[inline(always)]
pub(crate) fn push_number<const N: usize>(into: &mut ArrayString<N>, number: u8)
    requires room { length into.old.bytes + 21 ≤ N }
    ensures text { into.new.bytes ≡ into.old.bytes ++ (32 ∷ decimal number) }
    ensures few { length into.new.bytes ≤ length into.old.bytes + 21 }
{
    if number < 10 {
        into.push_str(spaced_digit(u64::from(number)));
    } else {
        push_long_number(into, number);
    }
}

#[inline(never)]
pub(crate) fn push_long_number<const N: usize>(into: &mut ArrayString<N>, number: u8)
    requires room { length into.old.bytes + 21 ≤ N }
    ensures text { into.new.bytes ≡ into.old.bytes ++ (32 ∷ decimal number) }
    ensures few { length into.new.bytes ≤ length into.old.bytes + 21 }
{
    append_spaced(into, u64::from(number));
}

// A word and a number.
#[inline(always)]
pub(crate) fn push_numbered<const N: usize>(into: &mut ArrayString<N>, word: &str, number: u8)
    requires room { length into.old.bytes + length word.now + 21 ≤ N }
    ensures text { into.new.bytes ≡ into.old.bytes ++ (word.now ++ (32 ∷ decimal number)) }
    ensures few { length into.new.bytes ≤ length into.old.bytes + length word.now + 21 }
{
    into.push_str(word);
    push_number(into, number);
}

// A word and two numbers.
#[inline(always)]
pub(crate) fn push_twice_numbered<const N: usize>(
    into: &mut ArrayString<N>,
    word: &str,
    first: u8,
    second: u8,
)
    requires room { length into.old.bytes + length word.now + 42 ≤ N }
    ensures text { into.new.bytes ≡
        into.old.bytes ++ (word.now ++ (32 ∷ (decimal first ++ (32 ∷ decimal second)))) }
    ensures few { length into.new.bytes ≤ length into.old.bytes + length word.now + 42 }
{
    push_numbered(into, word, first);
    push_number(into, second);
}
