//! The line of a step.

ghost use Rattle.std.specs.Prelude.{◌≡◌, ◌≤◌, ◌+◌, ◌++◌, ◌∷◌, [], length, codes};
ghost use Rattle.std.specs.Fmt.{decimal};
ghost use Rattle.std.specs.Str.{bytes_eq};
ghost use Rattle.hmc_codes.specs.Flit.{zero_flit};
ghost use Rattle.hmc_codes.specs.Text.{line, spaced_words};
ghost use Rattle.hmc_entries.specs.Lines.{lift_text};
ghost use Rattle.hmc_step_text.specs.Text.{mask_text, mask_end, written_words, step_line};

use arrayvec::ArrayString;
use hmc_codes::{Flit, Lift, ZERO_FLIT, append_sixteen, append_spaced};
use hmc_schedule::Step;

/// A text that has room for the line of any step.
pub type StepText = ArrayString<80>;

// A word and a number.
fn push_one(into: &mut StepText, word: &str, number: u8)
    requires room { length into.old.bytes + length word.now + 21 ≤ 80 }
    ensures text { into.new.bytes ≡ into.old.bytes ++ (word.now ++ (32 ∷ decimal number)) }
    ensures few { length into.new.bytes ≤ length into.old.bytes + length word.now + 21 }
{
    into.push_str(word);
    append_spaced(into, u64::from(number));
}

// A word and two numbers.
fn push_two(into: &mut StepText, word: &str, first: u8, second: u8)
    requires room { length into.old.bytes + length word.now + 42 ≤ 80 }
    ensures text { into.new.bytes ≡
        into.old.bytes ++ (word.now ++ (32 ∷ (decimal first ++ (32 ∷ decimal second)))) }
    ensures few { length into.new.bytes ≤ length into.old.bytes + length word.now + 42 }
{
    push_one(into, word, first);
    append_spaced(into, u64::from(second));
}

// A cube and a queue of its answers.
fn push_lift(into: &mut StepText, cube: u8, from: Lift)
    requires room { length into.old.bytes + 46 ≤ 80 }
    ensures text { into.new.bytes ≡
        into.old.bytes ++ (codes "lift" ++ (32 ∷ (decimal cube ++ (32 ∷ lift_text from)))) }
    ensures few { length into.new.bytes ≤ length into.old.bytes + 46 }
{
    push_one(into, "lift", cube);
    match from {
        Lift::Vault(vault) => append_spaced(into, u64::from(vault)),
        Lift::Registers => into.push_str(" r"),
    }
}

// Whether the mask changes nothing.
#[tactic(auto, unfolding(hmc_codes::specs::Flit::zero_flit))]
fn is_zero(mask: &Flit) -> bool
    ensures { result ≡ bytes_eq mask.now zero_flit }
{
    *mask == ZERO_FLIT
}

// A space and a mask, unless it changes nothing.
fn push_mask(into: &mut StepText, mask: &Flit)
    requires room { length into.old.bytes + 33 ≤ 80 }
    ensures text { into.new.bytes ≡ into.old.bytes ++ mask_end mask.now }
    ensures few { length into.new.bytes ≤ length into.old.bytes + 33 }
{
    if is_zero(mask) {
        return;
    }
    into.push_str(" ");
    append_sixteen(into, mask);
}

// A direction, and a mask unless it changes nothing.
fn push_land(into: &mut StepText, direction: u8, mask: &Flit)
    requires room { length into.old.bytes + 58 ≤ 80 }
    ensures text { into.new.bytes ≡ into.old.bytes
        ++ spaced_words (codes "land" ∷ decimal direction ∷ mask_text mask.now) }
    ensures few { length into.new.bytes ≤ length into.old.bytes + 58 }
{
    push_one(into, "land", direction);
    push_mask(into, mask);
}

// The words of a step.
fn push_words(into: &mut StepText, step: &Step)
    requires room { length into.old.bytes + 75 ≤ 80 }
    ensures text { into.new.bytes ≡ into.old.bytes ++ spaced_words (written_words step.now) }
    ensures few { length into.new.bytes ≤ length into.old.bytes + 75 }
{
    match step {
        Step::Give(host) => push_one(into, "give", *host),
        Step::Send(direction) => push_one(into, "send", *direction),
        Step::Land(direction, mask) => push_land(into, *direction, mask),
        Step::Shift(cube, port) => push_two(into, "shift", *cube, *port),
        Step::Spread(cube, vault) => push_two(into, "spread", *cube, *vault),
        Step::Bank(cube, vault, bank) => {
            push_two(into, "bank", *cube, *vault);
            append_spaced(into, u64::from(*bank));
        }
        Step::Registers(cube) => push_one(into, "registers", *cube),
        Step::Lift(cube, from) => push_lift(into, *cube, *from),
        Step::Take(host) => push_one(into, "take", *host),
        Step::Through(cube, port) => push_two(into, "through", *cube, *port),
        Step::Unlock(direction) => push_one(into, "unlock", *direction),
        Step::Retire(slot) => push_one(into, "retire", *slot),
    }
}

/// The line of a step in a schedule: its word, its numbers in decimal, of a landing the mask in
/// lower-case hexadecimal unless it is zero, and a line feed at the end.
pub fn step_line(step: &Step) -> StepText
    ensures { result.bytes ≡ step_line step.now }
{
    let mut text = StepText::new();
    push_words(&mut text, step);
    text.push_str("\n");
    text
}
