//! Numbers.

ghost use Rattle.std.specs.Prelude.{◌≡◌, ◌<◌, ◌≤◌, length, IfSome};
ghost use Rattle.hex.specs.Hex.{hex_digit_value};
ghost use Rattle.hmc_text.specs.Number.{below, most_digits, number_after, number_in, number_of};

/// The digits that a number has at most.
const MOST_DIGITS: usize = 20;

fn hex_digit(byte: u8) -> Option<u8>
    ensures { result ≡ hex_digit_value byte }
{
    match byte {
        b'A'..=b'F' => Some(byte - b'A' + 10),
        b'a'..=b'f' => Some(byte - b'a' + 10),
        b'0'..=b'9' => Some(byte - b'0'),
        _ => None,
    }
}

// A digit of this base.
fn digit(base: u8, byte: u8) -> Option<u8>
    ensures value { result ≡ below base (hex_digit_value byte) }
    ensures small { IfSome result (λ d. d < base) }
{
    let value = hex_digit(byte)?;
    if value < base { Some(value) } else { None }
}

// The number that these digits make.
fn number_after(base: u8, digits: &[u8]) -> Option<u128>
    requires base { base ≤ 16 }
    requires few { length digits.now ≤ most_digits }
    ensures { result ≡ number_after base 0 digits.now }
{
    let mut number = 0;
    'digits: for byte in digits {
        let Some(value) = digit(base, *byte) else {
            return None;
        };
        number = number * u128::from(base) + u128::from(value);
    }
    Some(number)
}

// A number with 1 to 20 digits.
#[tactic(auto, unfolding(crate::specs::Number::number_in))]
fn number_in(base: u8, digits: &[u8]) -> Option<u128>
    requires { base ≤ 16 }
    ensures { result ≡ number_in base digits.now }
{
    if digits.is_empty() || digits.len() > MOST_DIGITS {
        return None;
    }
    number_after(base, digits)
}

/// The number that 1 to 20 decimal digits are, leading zeros among them.
pub fn decimal(digits: &[u8]) -> Option<u128>
    ensures { result ≡ number_in 10 digits.now }
{
    number_in(10, digits)
}

/// The number that a word is: decimal digits, or `0x` and hexadecimal digits in either case. There
/// are 1 to 20 digits, leading zeros among them.
#[tactic(auto, unfolding(crate::specs::Number::number_of))]
pub fn number(word: &[u8]) -> Option<u128>
    ensures { result ≡ number_of word.now }
{
    match word {
        [b'0', b'x', digits @ ..] => number_in(16, digits),
        _ => number_in(10, word),
    }
}

/// The number that a word is, if it is below the limit.
pub fn below(limit: u64, word: &[u8]) -> Option<u64>
    ensures value { result ≡ below limit (number_of word.now) }
    ensures small { IfSome result (λ n. n < limit) }
{
    let number = number(word)?;
    if number < u128::from(limit) {
        Some(number as u64)
    } else {
        None
    }
}
