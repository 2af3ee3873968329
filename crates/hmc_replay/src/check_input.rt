//! The input of the form `check`: the length of a case, the case, and a report.

ghost use Rattle.std.specs.Prelude.{◌≡◌, ◌<◌, ◌≤◌, length, position, option_map, IfSome};
ghost use Rattle.hmc_replay.specs.CheckInput.{is_feed, after_case, case_length, head_length, parted, check_input};

use hmc_text::number::decimal;

/// The digits that the length of a case has at most.
const MOST_DIGITS: usize = 8;

// Where the first line feed is.
fn feed(input: &[u8]) -> Option<usize>
    ensures value { result ≡ position is_feed input.now }
    ensures inside { IfSome result (λ end. end < length input.now) }
{
    input.iter().position(|byte| *byte == b'\n')
}

// What follows `case ` in the first line.
fn after_case(head: &[u8]) -> Option<&[u8]>
    ensures { option_map (λ digits. digits.now) result ≡ after_case head.now }
{
    match head {
        [b'c', b'a', b's', b'e', b' ', digits @ ..] => Some(digits),
        _ => None,
    }
}

// The length of a case by its digits.
fn case_length(digits: &[u8]) -> Option<u128>
    ensures { result ≡ case_length digits.now }
{
    if digits.len() > MOST_DIGITS {
        return None;
    }
    decimal(digits)
}

// The length of a case by the first line.
#[tactic(auto, unfolding(crate::specs::CheckInput::head_length))]
fn head_length(head: &[u8]) -> Option<u128>
    ensures { result ≡ head_length head.now }
{
    case_length(after_case(head)?)
}

// The bytes of the case, and those of the report.
fn parted(rest: &[u8], bytes: u128) -> Option<(&[u8], &[u8])>
    ensures { option_map (λ p. record { case = p.0.now; report = p.1.now }) result
        ≡ parted rest.now bytes }
{
    if bytes > rest.len() as u128 {
        return None;
    }
    Some(rest.split_at(bytes as usize))
}

/// The case and the report of an input of `check`; `None` if it doesn't begin with the length of a
/// case, or has fewer bytes than that.
#[tactic(auto, unfolding(crate::specs::CheckInput::check_input))]
pub fn check_input(input: &[u8]) -> Option<(&[u8], &[u8])>
    ensures { option_map (λ p. record { case = p.0.now; report = p.1.now }) result
        ≡ check_input input.now }
{
    let end = feed(input)?;
    let bytes = head_length(&input[..end])?;
    parted(&input[end + 1..], bytes)
}
