//! The lines of steps that did nothing. Most end with a digit and a cause, in one piece.

ghost use Rattle.std.specs.Prelude.{◌≡◌, ◌<◌, ◌≤◌, ◌+◌, ◌∷◌, [], ◌++◌, false, length, codes};
ghost use Rattle.std.specs.Fmt.{decimal, digit_glyph};
ghost use Rattle.hmc_codes.specs.Text.{line, spaced_words};
ghost use Rattle.hmc_entries.specs.IdleStep.{idle_words};
ghost use Rattle.hmc_entries.specs.Lines.{lift_text, cause_text};

use crate::Cause;
use crate::idle_step::IdleStep;
use crate::pieces::{push_cause, push_numbered, push_twice_numbered};
use arrayvec::ArrayString;
use hmc_codes::{Lift, append_spaced, spaced_digit};

#[inline(always)]
fn empty_end(digit: u8) -> &'static str
    requires { digit < 10 }
    ensures { result.now ≡ 32 ∷ digit_glyph false digit ∷ codes " empty\n" }
{
    match digit {
        0 => " 0 empty\n",
        1 => " 1 empty\n",
        2 => " 2 empty\n",
        3 => " 3 empty\n",
        4 => " 4 empty\n",
        5 => " 5 empty\n",
        6 => " 6 empty\n",
        7 => " 7 empty\n",
        8 => " 8 empty\n",
        _ => " 9 empty\n",
    }
}

#[inline(always)]
fn full_end(digit: u8) -> &'static str
    requires { digit < 10 }
    ensures { result.now ≡ 32 ∷ digit_glyph false digit ∷ codes " full\n" }
{
    match digit {
        0 => " 0 full\n",
        1 => " 1 full\n",
        2 => " 2 full\n",
        3 => " 3 full\n",
        4 => " 4 full\n",
        5 => " 5 full\n",
        6 => " 6 full\n",
        7 => " 7 full\n",
        8 => " 8 full\n",
        _ => " 9 full\n",
    }
}

#[inline(always)]
fn ended_end(digit: u8) -> &'static str
    requires { digit < 10 }
    ensures { result.now ≡ 32 ∷ digit_glyph false digit ∷ codes " ended\n" }
{
    match digit {
        0 => " 0 ended\n",
        1 => " 1 ended\n",
        2 => " 2 ended\n",
        3 => " 3 ended\n",
        4 => " 4 ended\n",
        5 => " 5 ended\n",
        6 => " 6 ended\n",
        7 => " 7 ended\n",
        8 => " 8 ended\n",
        _ => " 9 ended\n",
    }
}

// Any number and any cause.
#[inline(never)]
fn push_any_end<const N: usize>(into: &mut ArrayString<N>, number: u8, cause: Cause)
    requires room { length into.old.bytes + 31 ≤ N }
    ensures text { into.new.bytes ≡ into.old.bytes ++
        (32 ∷ (decimal number ++ (32 ∷ (cause_text cause ++ (10 ∷ []))))) }
    ensures few { length into.new.bytes ≤ length into.old.bytes + 31 }
{
    append_spaced(into, u64::from(number));
    push_cause(into, cause);
}

// The last number of a step and the cause, which end the line.
#[tactic(auto, using(hmc_codes::proofs::Digits::decimal_last))]
#[inline(always)]
fn push_idle_end<const N: usize>(into: &mut ArrayString<N>, number: u8, cause: Cause)
    requires room { length into.old.bytes + 31 ≤ N }
    ensures text { into.new.bytes ≡ into.old.bytes ++
        (32 ∷ (decimal number ++ (32 ∷ (cause_text cause ++ (10 ∷ []))))) }
    ensures few { length into.new.bytes ≤ length into.old.bytes + 31 }
{
    if number >= 10 {
        push_any_end(into, number, cause);
        return;
    }
    match cause {
        Cause::Empty => into.push_str(empty_end(number)),
        Cause::Full => into.push_str(full_end(number)),
        Cause::Ended => into.push_str(ended_end(number)),
        _ => push_any_end(into, number, cause),
    }
}

// The same of a lift: a vault, or the registers.
#[inline(always)]
fn push_lift_end<const N: usize>(into: &mut ArrayString<N>, from: Lift, cause: Cause)
    requires room { length into.old.bytes + 31 ≤ N }
    ensures text { into.new.bytes ≡ into.old.bytes ++
        (32 ∷ (lift_text from ++ (32 ∷ (cause_text cause ++ (10 ∷ []))))) }
    ensures few { length into.new.bytes ≤ length into.old.bytes + 31 }
{
    match from {
        Lift::Vault(vault) => push_idle_end(into, vault, cause),
        Lift::Registers => push_registers_end(into, cause),
    }
}

// The registers and the cause, which end the line.
#[inline(always)]
fn push_registers_end<const N: usize>(into: &mut ArrayString<N>, cause: Cause)
    requires room { length into.old.bytes + 31 ≤ N }
    ensures text { into.new.bytes ≡ into.old.bytes ++
        (32 ∷ (codes "r" ++ (32 ∷ (cause_text cause ++ (10 ∷ []))))) }
    ensures few { length into.new.bytes ≤ length into.old.bytes + 31 }
{
    match cause {
        Cause::Empty => into.push_str(" r empty\n"),
        _ => {
            into.push_str(" r");
            push_cause(into, cause);
        }
    }
}

// The line of a step with one number.
#[inline(always)]
fn push_idle<const N: usize>(into: &mut ArrayString<N>, word: &str, number: u8, cause: Cause)
    requires room { length into.old.bytes + length word.now + 31 ≤ N }
    ensures text { into.new.bytes ≡ into.old.bytes ++
        (word.now ++ (32 ∷ (decimal number ++ (32 ∷ (cause_text cause ++ (10 ∷ [])))))) }
    ensures few { length into.new.bytes ≤ length into.old.bytes + length word.now + 31 }
{
    into.push_str(word);
    push_idle_end(into, number, cause);
}

// The line of a step with two numbers.
#[tactic(auto, using(hmc_codes::proofs::Digits::decimal_last))]
#[inline(always)]
fn push_idle_pair<const N: usize>(
    into: &mut ArrayString<N>,
    word: &str,
    first: u8,
    second: u8,
    cause: Cause,
)
    requires room { length into.old.bytes + length word.now + 52 ≤ N }
    ensures text { into.new.bytes ≡ into.old.bytes ++ (word.now ++ (32 ∷ (decimal first ++
        (32 ∷ (decimal second ++ (32 ∷ (cause_text cause ++ (10 ∷ [])))))))) }
    ensures few { length into.new.bytes ≤ length into.old.bytes + length word.now + 52 }
{
    if first < 10 {
        into.push_str(word);
        into.push_str(spaced_digit(u64::from(first)));
        push_idle_end(into, second, cause);
    } else {
        push_any_pair(into, word, first, second, cause);
    }
}

// Any two numbers.
#[inline(never)]
fn push_any_pair<const N: usize>(
    into: &mut ArrayString<N>,
    word: &str,
    first: u8,
    second: u8,
    cause: Cause,
)
    requires room { length into.old.bytes + length word.now + 52 ≤ N }
    ensures text { into.new.bytes ≡ into.old.bytes ++ (word.now ++ (32 ∷ (decimal first ++
        (32 ∷ (decimal second ++ (32 ∷ (cause_text cause ++ (10 ∷ [])))))))) }
    ensures few { length into.new.bytes ≤ length into.old.bytes + length word.now + 52 }
{
    push_numbered(into, word, first);
    push_any_end(into, second, cause);
}

// The line of a bank's step.
#[tactic(auto, using(hmc_codes::proofs::Digits::decimal_last))]
#[inline(always)]
fn push_idle_bank<const N: usize>(
    into: &mut ArrayString<N>,
    cube: u8,
    vault: u8,
    bank: u8,
    cause: Cause,
)
    requires room { length into.old.bytes + 82 ≤ N }
    ensures text { into.new.bytes ≡ into.old.bytes ++ (codes "idle bank" ++ (32 ∷ (decimal cube ++
        (32 ∷ (decimal vault ++ (32 ∷ (decimal bank ++ (32 ∷ (cause_text cause ++
        (10 ∷ [])))))))))) }
    ensures few { length into.new.bytes ≤ length into.old.bytes + 82 }
{
    if cube < 10 && vault < 10 {
        into.push_str("idle bank");
        into.push_str(spaced_digit(u64::from(cube)));
        into.push_str(spaced_digit(u64::from(vault)));
        push_idle_end(into, bank, cause);
    } else {
        push_any_bank(into, cube, vault, bank, cause);
    }
}

// Any bank.
#[inline(never)]
fn push_any_bank<const N: usize>(
    into: &mut ArrayString<N>,
    cube: u8,
    vault: u8,
    bank: u8,
    cause: Cause,
)
    requires room { length into.old.bytes + 82 ≤ N }
    ensures text { into.new.bytes ≡ into.old.bytes ++ (codes "idle bank" ++ (32 ∷ (decimal cube ++
        (32 ∷ (decimal vault ++ (32 ∷ (decimal bank ++ (32 ∷ (cause_text cause ++
        (10 ∷ [])))))))))) }
    ensures few { length into.new.bytes ≤ length into.old.bytes + 82 }
{
    push_twice_numbered(into, "idle bank", cube, vault);
    push_any_end(into, bank, cause);
}

// The line of a lift.
#[tactic(auto, using(hmc_codes::proofs::Digits::decimal_last))]
#[inline(always)]
fn push_idle_lift<const N: usize>(into: &mut ArrayString<N>, cube: u8, from: Lift, cause: Cause)
    requires room { length into.old.bytes + 61 ≤ N }
    ensures text { into.new.bytes ≡ into.old.bytes ++ (codes "idle lift" ++ (32 ∷ (decimal cube ++
        (32 ∷ (lift_text from ++ (32 ∷ (cause_text cause ++ (10 ∷ [])))))))) }
    ensures few { length into.new.bytes ≤ length into.old.bytes + 61 }
{
    if cube < 10 {
        into.push_str("idle lift");
        into.push_str(spaced_digit(u64::from(cube)));
        push_lift_end(into, from, cause);
    } else {
        push_any_lift(into, cube, from, cause);
    }
}

// Any lift.
#[inline(never)]
fn push_any_lift<const N: usize>(into: &mut ArrayString<N>, cube: u8, from: Lift, cause: Cause)
    requires room { length into.old.bytes + 61 ≤ N }
    ensures text { into.new.bytes ≡ into.old.bytes ++ (codes "idle lift" ++ (32 ∷ (decimal cube ++
        (32 ∷ (lift_text from ++ (32 ∷ (cause_text cause ++ (10 ∷ [])))))))) }
    ensures few { length into.new.bytes ≤ length into.old.bytes + 61 }
{
    push_numbered(into, "idle lift", cube);
    push_lift_end(into, from, cause);
}

/// The line of a step that did nothing.
#[inline(always)]
pub(crate) fn idle_line<const N: usize>(into: &mut ArrayString<N>, step: IdleStep, cause: Cause)
    requires room { length into.old.bytes + 2048 ≤ N }
    ensures text { into.new.bytes ≡ into.old.bytes ++
        line (codes "idle" ∷ spaced_words (idle_words step) ∷ cause_text cause ∷ []) }
    ensures short { length into.new.bytes < length into.old.bytes + 2048 }
{
    match step {
        IdleStep::Give(host) => push_idle(into, "idle give", host, cause),
        IdleStep::Send(direction) => push_idle(into, "idle send", direction, cause),
        IdleStep::Land(direction) => push_idle(into, "idle land", direction, cause),
        IdleStep::Shift(cube, port) => push_idle_pair(into, "idle shift", cube, port, cause),
        IdleStep::Spread(cube, vault) => push_idle_pair(into, "idle spread", cube, vault, cause),
        IdleStep::Bank(cube, vault, bank) => push_idle_bank(into, cube, vault, bank, cause),
        IdleStep::Registers(cube) => push_idle(into, "idle registers", cube, cause),
        IdleStep::Lift(cube, from) => push_idle_lift(into, cube, from, cause),
        IdleStep::Take(host) => push_idle(into, "idle take", host, cause),
        IdleStep::Through(cube, port) => push_idle_pair(into, "idle through", cube, port, cause),
        IdleStep::Unlock(direction) => push_idle(into, "idle unlock", direction, cause),
        IdleStep::Retire(slot) => push_idle(into, "idle retire", slot, cause),
    }
}
