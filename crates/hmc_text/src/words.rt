//! The words of a line: the parts between spaces and tabs that aren't empty.

ghost use Rattle.std.specs.Prelude.{◌≡◌, ◌≤◌, length, option_map};
ghost use Rattle.std.specs.List.{prefix_len, position_or_len};
ghost use Rattle.hmc_text.specs.Words.{is_blank, words_of, first_word, is_passed_over};

use memchr::memchr2;

fn is_blank(byte: u8) -> bool
    ensures { result ≡ is_blank byte }
{
    byte == b' ' || byte == b'\t'
}

// The number of blanks that the line begins with.
fn blanks(line: &[u8]) -> usize
    ensures length { result ≡ prefix_len is_blank line.now }
    ensures few { result ≤ length line.now }
{
    line.iter().take_while(|byte| is_blank(**byte)).count()
}

// The number of bytes before the first blank.
fn letters(line: &[u8]) -> usize
    ensures length { result ≡ position_or_len is_blank line.now }
    ensures few { result ≤ length line.now }
{
    memchr2(b' ', b'\t', line).unwrap_or(line.len())
}

/// The first word and the rest of the line, if there is a word.
pub fn first_word(line: &[u8]) -> Option<(&[u8], &[u8])>
    ensures { option_map (λ p. (p.0.now, words_of p.1.now)) result
        ≡ first_word (words_of line.now) }
{
    let (_, line) = line.split_at(blanks(line));
    if line.is_empty() {
        return None;
    }
    Some(line.split_at(letters(line)))
}

/// Whether the line has no meaning: it has no word, or its first word begins with `#`.
pub fn is_passed_over(line: &[u8]) -> bool
    ensures { result ≡ is_passed_over (words_of line.now) }
{
    match first_word(line) {
        Some((word, _)) => word.first() == Some(&b'#'),
        None => true,
    }
}
