//! Words of lines, and texts that are put together.

use std::alloc::AllocError;

/// A fragment of a text.
#[derive(Clone, Copy)]
pub enum Fragment<'a> {
    /// A text.
    Text(&'a str),
    /// A number in decimal digits.
    Number(u64),
    /// A number in hexadecimal digits, with 0x before them.
    Hex(u64),
}

/// The first word of a line, and what follows the blank after it.
pub fn first_word(line: &str) -> (&str, &str) {
    line.split_once(' ').unwrap_or((line, ""))
}

/// The number that a word states in decimal digits, if it is one.
pub fn number_of(word: &str) -> Option<u32> {
    word.parse::<u32>().ok()
}

/// Whether two texts are the same.
pub fn is_same(one: &str, other: &str) -> bool {
    one == other
}

// Appends a fragment.
fn push(into: &mut String, fragment: Fragment<'_>) -> Result<(), AllocError> {
    match fragment {
        Fragment::Text(text) => into.push_str(text),
        Fragment::Number(number) => write!(into, "{number}"),
        Fragment::Hex(number) => write!(into, "{number:#x}"),
    }
}

/// Appends these fragments.
pub fn push_all(into: &mut String, fragments: &[Fragment<'_>]) -> Result<(), AllocError> {
    for fragment in fragments {
        push(into, *fragment)?;
    }
    Ok(())
}

/// Appends that all rows of a table of this name hold, so many.
pub fn push_all_hold(into: &mut String, name: &str, count: u64) -> Result<(), AllocError> {
    push_all(
        into,
        &[
            Fragment::Text(name),
            Fragment::Text(": "),
            Fragment::Number(count),
            Fragment::Text(" rows hold\n"),
        ],
    )
}

/// Appends that this row of a table differs from what it says.
pub fn push_differs<'a>(into: &mut String, name: &'a str, row: &'a str) -> Result<(), AllocError> {
    push_all(
        into,
        &[
            Fragment::Text(name),
            Fragment::Text(": the row "),
            Fragment::Text(row),
            Fragment::Text(" differs\n"),
        ],
    )
}
