//! The words after the first word of a line.

ghost use Rattle.std.specs.Prelude.{◌≡◌, ◌<◌, ◌≤◌, ℕ, IfOk};
ghost use Rattle.std.specs.Result.{result_ok};
ghost use Rattle.hex.specs.Hex.{decode_sized};
ghost use Rattle.hmc_codes.specs.Flit.{IsFlit};
ghost use Rattle.hmc_text.specs.Reading.{Gives};
ghost use Rattle.hmc_text.specs.Words.{words_of};
ghost use Rattle.hmc_schedule.specs.Operands.{index_word, port_words, vault_words, vault_lift, lift_word, mask_word, mask_words, due_mask, count_word};
ghost use Rattle.hmc_schedule.specs.Plan.{IsPortOf, IsVaultOf, IsLiftBelow};

use crate::{Plan, ScheduleKind};
use hex::FromHex;
use hmc_codes::{Flit, Lift, MOST_STEPS, PORTS, ZERO_FLIT};
use hmc_text::reading::{next_word, number_word};
use hmc_text::words::first_word;

/// A number below the limit, and the rest of the line.
pub fn index_word(limit: u8, line: &[u8]) -> Result<(u8, &[u8]), ScheduleKind>
    ensures value { Gives (λ p. (p.0, words_of p.1.now)) result
        (index_word limit (words_of line.now)) }
    ensures small { IfOk result (λ p. p.0 < limit) }
{
    let (number, rest) = number_word(
        ScheduleKind::Words,
        ScheduleKind::Number,
        ScheduleKind::Range,
        u64::from(limit),
        line,
    )?;
    Ok((number as u8, rest))
}

/// A cube and one of its joined ports, and the rest of the line.
#[tactic(auto, unfolding(crate::specs::Operands::port_words))]
pub fn port_words<'a>(plan: &Plan, line: &'a [u8]) -> Result<(u8, u8, &'a [u8]), ScheduleKind>
    ensures value { Gives (λ p. (p.0, p.1, words_of p.2.now)) result
        (port_words plan.now (words_of line.now)) }
    ensures within { IfOk result (λ p. IsPortOf plan.now p.0 p.1) }
{
    let (cube, rest) = index_word(plan.cube_count(), line)?;
    let (port, rest) = index_word(PORTS, rest)?;
    if !plan.is_joined(cube, port) {
        return Err(ScheduleKind::Range);
    }
    Ok((cube, port, rest))
}

/// A cube and one of its vaults, and the rest of the line.
#[tactic(auto, unfolding(crate::specs::Operands::vault_words))]
pub fn vault_words<'a>(plan: &Plan, line: &'a [u8]) -> Result<(u8, u8, &'a [u8]), ScheduleKind>
    ensures value { Gives (λ p. (p.0, p.1, words_of p.2.now)) result
        (vault_words plan.now (words_of line.now)) }
    ensures within { IfOk result (λ p. IsVaultOf plan.now p.0 p.1) }
{
    let (cube, rest) = index_word(plan.cube_count(), line)?;
    let (vault, rest) = index_word(plan.vaults(cube), rest)?;
    Ok((cube, vault, rest))
}

#[tactic(auto, unfolding(crate::specs::Operands::vault_lift))]
fn vault_lift(vaults: u8, line: &[u8]) -> Result<(Lift, &[u8]), ScheduleKind>
    ensures value { Gives (λ p. (p.0, words_of p.1.now)) result
        (vault_lift vaults (words_of line.now)) }
    ensures within { IfOk result (λ p. IsLiftBelow vaults p.0) }
{
    let (vault, rest) = index_word(vaults, line)?;
    Ok((Lift::Vault(vault), rest))
}

/// One of this many vaults, or `r` for the registers, and the rest of the line.
#[tactic(auto, unfolding(crate::specs::Operands::lift_word))]
pub fn lift_word(vaults: u8, line: &[u8]) -> Result<(Lift, &[u8]), ScheduleKind>
    ensures value { Gives (λ p. (p.0, words_of p.1.now)) result
        (lift_word vaults (words_of line.now)) }
    ensures within { IfOk result (λ p. IsLiftBelow vaults p.0) }
{
    let (first, rest) = next_word(ScheduleKind::Words, line)?;
    if first == b"r".as_slice() {
        return Ok((Lift::Registers, rest));
    }
    vault_lift(vaults, line)
}

// The flit with these digits, two a byte.
fn flit(digits: &[u8]) -> Option<Flit>
    ensures { result ≡ result_ok (decode_sized digits.now 16) }
{
    <[u8; 16]>::from_hex(digits).ok()
}

#[tactic(auto, unfolding(crate::specs::Operands::mask_word))]
fn mask_word(word: &[u8]) -> Result<Flit, ScheduleKind>
    ensures value { result ≡ mask_word word.now }
    ensures mask { IfOk result IsFlit }
{
    let Some(mask) = flit(word) else {
        return Err(ScheduleKind::Mask);
    };
    Ok(mask)
}

/// A mask, and the rest of the line. The mask is zero where there is no word.
#[tactic(auto, unfolding(crate::specs::Operands::mask_words, hmc_codes::specs::Flit::zero_flit))]
pub fn mask_words(line: &[u8]) -> Result<(Flit, &[u8]), ScheduleKind>
    ensures value { Gives (λ p. (p.0, words_of p.1.now)) result (mask_words (words_of line.now)) }
    ensures mask { IfOk result (λ p. IsFlit p.0) }
{
    let Some((word, rest)) = first_word(line) else {
        return Ok((ZERO_FLIT, line));
    };
    let mask = mask_word(word)?;
    Ok((mask, rest))
}

/// A mask that may not be missing, and the rest of the line.
#[tactic(auto, unfolding(crate::specs::Operands::due_mask))]
pub fn due_mask(line: &[u8]) -> Result<(Flit, &[u8]), ScheduleKind>
    ensures value { Gives (λ p. (p.0, words_of p.1.now)) result (due_mask (words_of line.now)) }
    ensures mask { IfOk result (λ p. IsFlit p.0) }
{
    let (word, rest) = next_word(ScheduleKind::Words, line)?;
    let mask = mask_word(word)?;
    Ok((mask, rest))
}

/// A number of rounds or of landings, 1 to `MOST_STEPS`, and the rest of the line.
#[tactic(auto, unfolding(crate::specs::Operands::count_word))]
pub fn count_word(line: &[u8]) -> Result<(u32, &[u8]), ScheduleKind>
    ensures value { Gives (λ p. (p.0, words_of p.1.now)) result (count_word (words_of line.now)) }
    ensures some { IfOk result (λ p. 1 ≤ p.0) }
{
    let (count, rest) = number_word(
        ScheduleKind::Words,
        ScheduleKind::Number,
        ScheduleKind::Range,
        u64::from(MOST_STEPS) + 1,
        line,
    )?;
    if count == 0 {
        return Err(ScheduleKind::Range);
    }
    Ok((count as u32, rest))
}
