//! The final lines of a report: a line for each block of memory and each register that isn't zero,
//! the tokens and the counts of each direction, the counts of each host and each cube, and whether
//! the network drained.
//!
//! A network shows what the lines say by the trait [`Finished`]. [`Lines`] makes one line after
//! another and takes no memory; [`finish`] appends them to a text. specs/Final has all final lines
//! in order.
//!
//! Each other function writes one line into an empty text, with a line feed at its end, and takes
//! no memory. Every line is shorter than 2,048 bytes. specs/Lines has the lines, and how those of a
//! memory and of registers are put together.
#![tactic(auto)]

mod finished;
mod finishing;
mod lines;
mod part;

ghost use Rattle.std.specs.Prelude.{◌≡◌, ◌<◌, ◌*◌, ◌^◌, [], length};
ghost use Rattle.hmc_report.specs.Lines.{is_zero, memory_line, register_line, advertised, token_line, counter_line, host_line, cube_line, state_line};

pub use finished::Finished;
pub use finishing::finish;
use hmc_codes::{
    Counters, CubeCounts, HostCounts, LineText, PIECE, TokenRow, append_bytes, append_hex_number,
    append_sixteen, append_spaced,
};
pub use lines::Lines;
pub use part::Part;

/// How many bytes a line of memory has.
pub const LINE_BYTES: u64 = PIECE as u64;

/// The first register that can be written.
pub const FIRST_SCRATCH: u64 = 4;

/// How many registers can be written.
pub const SCRATCH_REGISTERS: u64 = 12;

/// Whether all bytes are zero.
pub fn is_zero(block: &[u8]) -> bool
    ensures { result ≡ is_zero block.now }
{
    block.iter().all(|byte| *byte == 0)
}

/// The line of a block of 16 bytes, by its number in the memory of its cube.
#[tactic(auto, unfolding(crate::specs::Lines::memory_line))]
pub fn memory_line(into: &mut LineText, cube: u8, block: u64, bytes: &[u8; 16])
    requires empty { into.old.bytes ≡ [] }
    requires place { 16 * block < 2 ^ 64 }
    ensures text { into.new.bytes ≡ memory_line cube block bytes.now }
    ensures short { length into.new.bytes < 2048 }
{
    let place = LINE_BYTES * block;
    into.push_str("memory");
    append_spaced(into, u64::from(cube));
    into.push_str(" ");
    append_hex_number(into, place);
    into.push_str(" ");
    append_sixteen(into, bytes);
    into.push_str("\n");
}

/// The line of a register.
#[tactic(auto, unfolding(crate::specs::Lines::register_line))]
pub fn register_line(into: &mut LineText, cube: u8, register: u64, value: u32)
    requires empty { into.old.bytes ≡ [] }
    ensures text { into.new.bytes ≡ register_line cube register value }
    ensures short { length into.new.bytes < 2048 }
{
    let bytes = value.to_be_bytes();
    into.push_str("register");
    append_spaced(into, u64::from(cube));
    append_spaced(into, register);
    into.push_str(" ");
    append_bytes(into, &bytes);
    into.push_str("\n");
}

// The sum of a row. Five numbers below 2^32 don't pass 64 bits.
fn advertised(row: &TokenRow) -> u64
    ensures { result ≡ advertised row.now }
{
    u64::from(row.held)
        + u64::from(row.transit)
        + u64::from(row.used)
        + u64::from(row.due)
        + u64::from(row.returning)
}

/// The line of a direction's tokens. Its last number is their sum, which the receiving end
/// advertises.
#[tactic(auto, unfolding(crate::specs::Lines::token_line))]
pub fn token_line(into: &mut LineText, direction: u8, row: &TokenRow)
    requires empty { into.old.bytes ≡ [] }
    ensures text { into.new.bytes ≡ token_line direction row.now }
    ensures short { length into.new.bytes < 2048 }
{
    into.push_str("tokens");
    append_spaced(into, u64::from(direction));
    append_spaced(into, u64::from(row.held));
    append_spaced(into, u64::from(row.transit));
    append_spaced(into, u64::from(row.used));
    append_spaced(into, u64::from(row.due));
    append_spaced(into, u64::from(row.returning));
    append_spaced(into, advertised(row));
    into.push_str("\n");
}

/// The line of what is counted of a direction.
#[tactic(auto, unfolding(crate::specs::Lines::counter_line))]
pub fn counter_line(into: &mut LineText, direction: u8, counters: &Counters)
    requires empty { into.old.bytes ≡ [] }
    ensures text { into.new.bytes ≡ counter_line direction counters.now }
    ensures short { length into.new.bytes < 2048 }
{
    into.push_str("counters");
    append_spaced(into, u64::from(direction));
    append_spaced(into, u64::from(counters.sent));
    append_spaced(into, u64::from(counters.landed));
    append_spaced(into, u64::from(counters.changed));
    append_spaced(into, u64::from(counters.accepted));
    append_spaced(into, u64::from(counters.repeats));
    append_spaced(into, u64::from(counters.aborts));
    into.push_str("\n");
}

/// The line of a host.
#[tactic(auto, unfolding(crate::specs::Lines::host_line))]
pub fn host_line(into: &mut LineText, host: u8, counts: &HostCounts)
    requires empty { into.old.bytes ≡ [] }
    ensures text { into.new.bytes ≡ host_line host counts.now }
    ensures short { length into.new.bytes < 2048 }
{
    into.push_str("host");
    append_spaced(into, u64::from(host));
    append_spaced(into, u64::from(counts.given));
    append_spaced(into, u64::from(counts.taken));
    append_spaced(into, u64::from(counts.out));
    into.push_str("\n");
}

/// The line of a cube.
#[tactic(auto, unfolding(crate::specs::Lines::cube_line))]
pub fn cube_line(into: &mut LineText, cube: u8, counts: &CubeCounts)
    requires empty { into.old.bytes ≡ [] }
    ensures text { into.new.bytes ≡ cube_line cube counts.now }
    ensures short { length into.new.bytes < 2048 }
{
    into.push_str("cube");
    append_spaced(into, u64::from(cube));
    append_spaced(into, u64::from(counts.executed));
    append_spaced(into, u64::from(counts.dropped));
    into.push_str("\n");
}

/// The last line.
#[tactic(auto, unfolding(crate::specs::Lines::state_line))]
pub fn state_line(into: &mut LineText, drained: bool)
    requires empty { into.old.bytes ≡ [] }
    ensures text { into.new.bytes ≡ state_line drained }
    ensures short { length into.new.bytes < 2048 }
{
    if drained {
        into.push_str("state drained\n");
    } else {
        into.push_str("state busy\n");
    }
}
