//! Orders, the lines of the input, and what is printed of one.

use crate::words::{first_word, is_same, number_of};

/// What an order is about.
#[derive(Clone, Copy)]
pub enum Way {
    /// The word `run` of the program.
    Report,
    /// The word `bound` of the program.
    Bound,
    /// The word `make` of the program.
    Make,
    /// Rows of packets.
    Packets,
    /// Rows of the values of loads.
    Values,
    /// Rows of logs.
    Logs,
    /// A sink that fails.
    Writes,
    /// A source that fails.
    Reads,
    /// A bench after a replay.
    Stamp,
    /// The parts of a case and of its network.
    Built,
    /// The parts of a case that has a number.
    Made,
    /// A session that draws drive.
    Draw,
    /// A session that goes on and on.
    Long,
    /// Rounds of a session: each step as a value.
    Steps,
    /// Rounds of a session: laid down ahead, one step by one.
    Next,
    /// Rounds of a session: laid down ahead, in one run.
    Run,
    /// Rounds as the program takes them.
    Program,
}

/// A line of the input.
#[derive(Drop)]
pub struct Order<'a> {
    /// Its first word.
    pub word: &'a str,
    /// What this word says.
    pub way: Way,
    /// The ending of the file of its case, or nothing where there is none.
    pub input_ending: &'static str,
    /// The ending of the file that is compared with, or nothing where there is none.
    pub stored_ending: &'static str,
    /// The name of the files, without their endings.
    pub name: &'a str,
    /// The seed.
    pub seed: u64,
    /// The count.
    pub count: u32,
}

/// What is printed of an order.
#[derive(Drop)]
pub struct Answer {
    /// The lines.
    pub text: String,
    /// How many calls of a session were out of memory.
    pub memory: u64,
}

/// The words of orders, what each is about, and the endings of the files that it reads.
const WORDS: &[(&str, Way, &str, &str)] = &[
    ("report", Way::Report, ".toml", ".report"),
    ("bound", Way::Bound, ".toml", ".bound"),
    ("make", Way::Make, "", ".report"),
    ("packets", Way::Packets, "", ".txt"),
    ("values", Way::Values, "", ".txt"),
    ("logs", Way::Logs, "", ".txt"),
    ("writes", Way::Writes, ".toml", ".report"),
    ("reads", Way::Reads, ".toml", ".report"),
    ("stamp", Way::Stamp, ".toml", ""),
    ("built", Way::Built, ".toml", ""),
    ("made", Way::Made, "", ""),
    ("draw", Way::Draw, ".toml", ""),
    ("long", Way::Long, ".toml", ""),
    ("steps", Way::Steps, ".toml", ""),
    ("next", Way::Next, ".toml", ""),
    ("run", Way::Run, ".toml", ""),
    ("program", Way::Program, ".toml", ""),
];

// What the first word of an order says.
fn way_of(first: &str) -> Option<(Way, &'static str, &'static str)> {
    for (word, way, input_ending, stored_ending) in WORDS {
        if is_same(word, first) {
            return Some((*way, *input_ending, *stored_ending));
        }
    }
    None
}

/// The order that a line states, if its first word is one of an order and its last two words are
/// numbers.
pub fn order_of(line: &str) -> Option<Order<'_>> {
    let (word, rest) = first_word(line);
    let (name, rest) = first_word(rest);
    let (seed, count) = first_word(rest);
    let (way, input_ending, stored_ending) = way_of(word)?;
    Some(Order {
        word,
        way,
        input_ending,
        stored_ending,
        name,
        seed: seed.parse::<u64>().ok()?,
        count: number_of(count)?,
    })
}
