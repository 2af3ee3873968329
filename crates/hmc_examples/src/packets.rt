//! Rows of flits, which are compared with what the rows say: the packets of another program, which
//! are spelled again by their flits, and flits that are none.
//!
//! A row has the profile of the link and either the fault that the flits have or the packet that
//! they spell: its command, tag, address, cube, SLID, AF, ERRSTAT, RTC, SEQ and FRP, whether it is
//! poisoned, and RRP. Then come the flits.

ghost use Rattle.std.specs.Cmp.Lexicographic.{pointwise};
ghost use Rattle.std.specs.Prelude.{◌≡◌};
ghost use Rattle.std.specs.Str.{bytes_eq};
ghost use Rattle.hmc_packet.specs.Spelling.{FitsProfile, spelling};

use crate::orders::Order;
use crate::reading::Contents;
use crate::words::{Fragment, first_word, number_of, push_all, push_all_hold, push_differs};
use arrayvec::ArrayVec;
use hmc_codes::{Flit, Memory, Profile};
use hmc_packet::{Bad, Packet, Seen, read, spell};
use std::alloc::{AllocError, Global};

/// The digits of a flit. No other word of a row has so many.
const FLIT_DIGITS: usize = 32;

type Flits = ArrayVec<Flit, 17>;

// The profile that a row begins with, and the rest.
fn profile_of(row: &str) -> Option<(Profile, &str)> {
    let (word, rest) = first_word(row);
    match number_of(word)? {
        1 => Some((Profile::One, rest)),
        2 => Some((Profile::Two, rest)),
        _ => None,
    }
}

// The flits of a line.
fn flits_in(line: &str) -> Option<Flits> {
    let mut flits = Flits::new();
    for word in line.split_whitespace() {
        if word.len() == FLIT_DIGITS {
            let flit = u128::from_str_radix(word, 16).ok()?.to_be_bytes();
            flits.try_push(flit).ok()?;
        }
    }
    Some(flits)
}

// Appends these numbers, each with a blank after it.
fn push_numbers(into: &mut String, numbers: &[u64]) -> Result<(), AllocError> {
    for number in numbers {
        push_all(into, &[Fragment::Number(*number), Fragment::Text(" ")])?;
    }
    Ok(())
}

// Appends the words of a packet up to its address.
fn push_first_words(into: &mut String, packet: &Packet) -> Result<(), AllocError> {
    push_all(
        into,
        &[
            Fragment::Text(packet.command.word()),
            Fragment::Text(" "),
            Fragment::Number(packet.tag as u64),
            Fragment::Text(" "),
            Fragment::Hex(packet.address),
            Fragment::Text(" "),
        ],
    )
}

// Appends the numbers of a packet after its address.
fn push_last_numbers(into: &mut String, packet: &Packet, rrp: u16) -> Result<(), AllocError> {
    push_numbers(
        into,
        &[
            packet.cube as u64,
            packet.slid as u64,
            packet.flag as u64,
            packet.errstat as u64,
            packet.rtc as u64,
            packet.seq as u64,
            packet.frp as u64,
            packet.poisoned as u64,
            rrp as u64,
        ],
    )
}

// The words of a packet, each with a blank after it.
fn words_of(alloc: Global, seen: &Seen) -> Result<String, AllocError> {
    let mut text = String::new(alloc);
    push_first_words(&mut text, &seen.packet)?;
    push_last_numbers(&mut text, &seen.packet, seen.rrp)?;
    Ok(text)
}

fn fault_name(bad: Bad) -> &'static str {
    match bad {
        Bad::Length => "length",
        Bad::Command => "command",
        Bad::Reserved => "reserved",
        Bad::Crc => "crc",
    }
}

// Whether the packet that was read is spelled by these flits, byte by byte.
fn is_spelled_by(seen: &Seen, profile: Profile, flits: &[Flit]) -> bool
    requires { FitsProfile profile seen.now.packet seen.now.rrp }
    ensures { result
        ≡ pointwise bytes_eq (spelling profile seen.now.packet seen.now.rrp) flits.now }
{
    spell(&seen.packet, seen.rrp, profile).as_slice() == flits
}

// Whether these flits are what the line says: the packet that they are read as, which is spelled by
// them, or the first fault that they have. No command has the word of a fault.
fn line_holds(
    alloc: Global,
    line: &str,
    profile: Profile,
    flits: &[Flit],
) -> Result<bool, AllocError> {
    match read(flits, profile) {
        Ok(seen) => {
            let is_same = line.starts_with(words_of(alloc, &seen)?.as_str());
            Ok(is_same && is_spelled_by(&seen, profile, flits))
        }
        Err(bad) => Ok(line.starts_with(fault_name(bad))),
    }
}

// Whether a row's flits are what it says.
fn row_holds(alloc: Global, row: &str) -> Result<bool, AllocError> {
    let Some((profile, line)) = profile_of(row) else {
        return Ok(false);
    };
    match flits_in(line) {
        Some(flits) => line_holds(alloc, line, profile, flits.as_slice()),
        None => Ok(false),
    }
}

/// Appends how many rows of a table hold, or which is the first that doesn't.
pub fn push_packets(
    alloc: Global,
    order: &Order<'_>,
    contents: &Contents,
    into: &mut String,
) -> Result<(), Memory> {
    let mut count = 0_u64;
    for row in contents.stored.as_str().lines() {
        if !row_holds(alloc, row)? {
            push_differs(into, order.name, row)?;
            return Ok(());
        }
        count = count.saturating_add(1);
    }
    push_all_hold(into, order.name, count)?;
    Ok(())
}
