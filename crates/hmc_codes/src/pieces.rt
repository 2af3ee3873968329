//! The pieces of a line: numbers and bytes, appended to a text that has room for them.
//!
//! Nothing here allocates. What a piece needs of room is the most that it can have.

ghost use Rattle.std.specs.Prelude.{◌≡◌, ◌+◌, ◌*◌, ◌<◌, ◌≤◌, ◌/◌, ◌%◌, ℕ, List, ◌∷◌, [], ◌++◌, length, false, slice_index};
ghost use Rattle.std.specs.Fmt.{decimal, digits, digit_glyph};
ghost use Rattle.hex.specs.Hex.{encode_lower, lower_digits};
ghost use Rattle.hmc_codes.specs.Text.{hex_number};

use arrayvec::ArrayString;
use std::str;

/// The text of a line. Every line of a report is shorter than 2,048 bytes.
pub type LineText = ArrayString<2048>;

/// Lines that are gathered, one after another.
pub type Gathered = ArrayString<8192>;

/// What has a line of at most 2,048 bytes.
pub trait Line {
    /// The line.
    ghost text: { Self → List ℕ };

    /// Appends the line to those that are gathered.
    fn put(&self, into: &mut Gathered)
        requires room { length into.old.bytes + 2048 ≤ 8192 }
        ensures text { into.new.bytes ≡ into.old.bytes ++ text self.now };
}

// The digits of a number.
type Digits = ArrayString<20>;

// One digit, in lower case.
fn digit_word(digit: u64) -> &'static str
    requires { digit < 16 }
    ensures { result.now ≡ digit_glyph false digit ∷ [] }
{
    match digit {
        0 => "0",
        1 => "1",
        2 => "2",
        3 => "3",
        4 => "4",
        5 => "5",
        6 => "6",
        7 => "7",
        8 => "8",
        9 => "9",
        10 => "a",
        11 => "b",
        12 => "c",
        13 => "d",
        14 => "e",
        _ => "f",
    }
}

#[tactic(auto, using(crate::proofs::Digits::decimal_last, crate::proofs::Digits::decimal_first))]
fn append_decimal_digits(into: &mut Digits, number: u64)
    requires room { length into.old.bytes + length (decimal number) ≤ 20 }
    ensures { into.new.bytes ≡ into.old.bytes ++ decimal number }
{
    if number < 10 {
        into.push_str(digit_word(number));
    } else {
        append_decimal_digits(into, number / 10);
        into.push_str(digit_word(number % 10));
    }
}

#[tactic(auto, using(crate::proofs::Digits::hex_last, crate::proofs::Digits::hex_first))]
fn append_hex_digits(into: &mut Digits, number: u64)
    requires room { length into.old.bytes + length (digits 16 false number) ≤ 20 }
    ensures { into.new.bytes ≡ into.old.bytes ++ digits 16 false number }
{
    if number < 16 {
        into.push_str(digit_word(number));
    } else {
        append_hex_digits(into, number / 16);
        into.push_str(digit_word(number % 16));
    }
}

#[tactic(auto, using(crate::proofs::Digits::decimal_length))]
fn decimal_digits(number: u64) -> Digits
    ensures text { result.bytes ≡ decimal number }
    ensures few { length result.bytes ≤ 20 }
{
    let mut digits = Digits::new();
    append_decimal_digits(&mut digits, number);
    digits
}

#[tactic(auto, using(crate::proofs::Digits::hex_length))]
fn hex_digits(number: u64) -> Digits
    ensures text { result.bytes ≡ digits 16 false number }
    ensures few { length result.bytes ≤ 16 }
{
    let mut digits = Digits::new();
    append_hex_digits(&mut digits, number);
    digits
}

/// Appends a number in decimal: at most 20 digits. Most numbers have one.
#[tactic(auto, using(crate::proofs::Digits::decimal_last))]
pub fn append_decimal<const N: usize>(into: &mut ArrayString<N>, number: u64)
    requires room { length into.old.bytes + 20 ≤ N }
    ensures text { into.new.bytes ≡ into.old.bytes ++ decimal number }
    ensures few { length into.new.bytes ≤ length into.old.bytes + 20 }
{
    if number < 10 {
        into.push_str(digit_word(number));
    } else {
        into.push_str(decimal_digits(number).as_str());
    }
}

/// A space and a digit, from 0 to 9.
#[inline(always)]
pub fn spaced_digit(digit: u64) -> &'static str
    requires { digit < 10 }
    ensures { result.now ≡ 32 ∷ digit_glyph false digit ∷ [] }
{
    match digit {
        0 => " 0",
        1 => " 1",
        2 => " 2",
        3 => " 3",
        4 => " 4",
        5 => " 5",
        6 => " 6",
        7 => " 7",
        8 => " 8",
        _ => " 9",
    }
}

/// Appends a space and a number in decimal: at most 21 bytes.
#[tactic(auto, using(crate::proofs::Digits::decimal_length, crate::proofs::Digits::decimal_last, crate::proofs::Digits::decimal_first))]
#[inline(always)]
pub fn append_spaced<const N: usize>(into: &mut ArrayString<N>, number: u64)
    requires room { length into.old.bytes + 21 ≤ N }
    ensures text { into.new.bytes ≡ into.old.bytes ++ (32 ∷ decimal number) }
    ensures few { length into.new.bytes ≤ length into.old.bytes + 21 }
{
    if number < 10 {
        into.push_str(spaced_digit(number));
    } else if number < 100 {
        into.push_str(spaced_digit(number / 10));
        into.push_str(digit_word(number % 10));
    } else {
        into.push_str(" ");
        into.push_str(decimal_digits(number).as_str());
    }
}

// Appends one or two digits.
#[inline(always)]
fn push_hex_two<const N: usize>(into: &mut ArrayString<N>, number: u64)
    requires small { number < 256 }
    requires room { length into.old.bytes + 2 ≤ N }
    ensures text { into.new.bytes ≡ into.old.bytes ++ digits 16 false number }
    ensures few { length into.new.bytes ≤ length into.old.bytes + 2 }
{
    if number < 16 {
        into.push_str(digit_word(number));
    } else {
        into.push_str(digit_word(number / 16));
        into.push_str(digit_word(number % 16));
    }
}

// Appends one to three digits.
#[inline(always)]
fn push_hex_three<const N: usize>(into: &mut ArrayString<N>, number: u64)
    requires small { number < 4096 }
    requires room { length into.old.bytes + 3 ≤ N }
    ensures text { into.new.bytes ≡ into.old.bytes ++ digits 16 false number }
    ensures few { length into.new.bytes ≤ length into.old.bytes + 3 }
{
    if number < 16 {
        into.push_str(digit_word(number));
    } else {
        push_hex_two(into, number / 16);
        into.push_str(digit_word(number % 16));
    }
}

/// Appends `0x` and a number in lower-case hexadecimal without leading zeros: at most 18 bytes.
pub fn append_hex_number<const N: usize>(into: &mut ArrayString<N>, number: u64)
    requires room { length into.old.bytes + 18 ≤ N }
    ensures text { into.new.bytes ≡ into.old.bytes ++ hex_number number }
    ensures few { length into.new.bytes ≤ length into.old.bytes + 18 }
{
    into.push_str("0x");
    if number < 4096 {
        push_hex_three(into, number);
    } else {
        into.push_str(hex_digits(number).as_str());
    }
}

// The two digits of a byte, in lower case: the first in the low eight bits, the second above them.
//
// No table is read and nothing is branched on, so that many bytes are done at once. Digits from ten
// on are letters: 'a' has the code 97, which is ten and the code of '0' and 39 more.
#[inline(always)]
fn digit_pair(byte: u8) -> u16
    ensures first { result % 256 ≡ slice_index lower_digits (byte / 16) }
    ensures second { result / 256 ≡ slice_index lower_digits (byte % 16) }
{
    let halves = u16::from(byte / 16) + 256 * u16::from(byte % 16);
    let letters = (halves + 0x0606) / 16 & 0x0101;
    halves + 0x3030 + 39 * letters
}

// Writes two digits for each byte.
fn encode(bytes: &[u8], digits: &mut [u8])
    requires { length digits.old ≡ 2 * length bytes.now }
    ensures { digits.new ≡ encode_lower bytes.now }
{
    'bytes: for at in 0..bytes.len() {
        let pair = digit_pair(bytes[at]);
        digits[2 * at] = (pair % 256) as u8;
        digits[2 * at + 1] = (pair / 256) as u8;
    }
}

fn push_digits<const N: usize>(into: &mut ArrayString<N>, bytes: &[u8], digits: &mut [u8])
    requires digits { length digits.old ≡ 2 * length bytes.now }
    requires room { length into.old.bytes + 2 * length bytes.now ≤ N }
    ensures text { into.new.bytes ≡ into.old.bytes ++ encode_lower bytes.now }
    ensures len { length into.new.bytes ≡ length into.old.bytes + 2 * length bytes.now }
{
    encode(bytes, digits);
    into.push_str(unsafe { str::from_utf8_unchecked(digits) });
}

// Appends the digits of sixteen bytes.
#[inline(always)]
fn append_block<const N: usize>(into: &mut ArrayString<N>, bytes: &[u8])
    requires bytes { length bytes.now ≡ 16 }
    requires room { length into.old.bytes + 32 ≤ N }
    ensures text { into.new.bytes ≡ into.old.bytes ++ encode_lower bytes.now }
    ensures len { length into.new.bytes ≡ length into.old.bytes + 32 }
{
    let mut digits = [0; 32];
    push_digits(into, bytes, &mut digits);
}

// Appends the digits of fewer bytes. Mostly there are none.
#[inline(always)]
fn append_few<const N: usize>(into: &mut ArrayString<N>, bytes: &[u8])
    requires bytes { length bytes.now < 16 }
    requires room { length into.old.bytes + 2 * length bytes.now ≤ N }
    ensures text { into.new.bytes ≡ into.old.bytes ++ encode_lower bytes.now }
    ensures len { length into.new.bytes ≡ length into.old.bytes + 2 * length bytes.now }
{
    if bytes.is_empty() {
        return;
    }
    let mut digits = [0; 32];
    push_digits(into, bytes, &mut digits[..2 * bytes.len()]);
}

/// Appends at most 256 bytes in lower-case hexadecimal, two digits for each: sixteen bytes after
/// sixteen, and then the rest.
pub fn append_bytes<const N: usize>(into: &mut ArrayString<N>, bytes: &[u8])
    requires bytes { length bytes.now ≤ 256 }
    requires room { length into.old.bytes + 2 * length bytes.now ≤ N }
    ensures text { into.new.bytes ≡ into.old.bytes ++ encode_lower bytes.now }
    ensures len { length into.new.bytes ≡ length into.old.bytes + 2 * length bytes.now }
{
    'sixteens: for block in 0..bytes.len() / 16 {
        append_block(into, &bytes[16 * block..][..16]);
    }
    append_few(into, &bytes[bytes.len() / 16 * 16..]);
}

/// Appends sixteen bytes, a flit or a block, in 32 lower-case hexadecimal digits.
pub fn append_sixteen<const N: usize>(into: &mut ArrayString<N>, bytes: &[u8; 16])
    requires room { length into.old.bytes + 32 ≤ N }
    ensures text { into.new.bytes ≡ into.old.bytes ++ encode_lower bytes.now }
    ensures len { length into.new.bytes ≡ length into.old.bytes + 32 }
{
    append_block(into, bytes);
}
