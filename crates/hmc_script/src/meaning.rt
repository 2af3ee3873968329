//! What a line of a script states.

ghost use Rattle.std.specs.Prelude.{ℕ, ◌≡◌, ◌≤◌, ◌<◌, ◌^◌, IfOk};
ghost use Rattle.hmc_codes.specs.Commands.{family_of};
ghost use Rattle.hmc_codes.specs.Limits.{most_cubes};
ghost use Rattle.hmc_codes.specs.Request.{IsRequest};
ghost use Rattle.hmc_codes.specs.declared.family.Family.TheVariants as families;
ghost use Rattle.hmc_text.specs.Words.{words_of};
ghost use Rattle.hmc_text.specs.Reading.{Gives};
ghost use Rattle.hmc_script.specs.Payload.{IsPayload};
ghost use Rattle.hmc_script.specs.Meaning.{number_word, command_word, request_of, fence_of, statement_of, meaning_of};
ghost use Rattle.hmc_script.specs.Head.{request_in, meaning_from, IsOfHost};

use crate::ScriptKind;
use crate::command::command_of;
use crate::payload::{Room, payload_word};
use hmc_codes::{Command, Request};
use hmc_text::reading::{self, next_word, no_word};
use hmc_text::words::is_passed_over;

/// What a line states, as contracts have it. It is never made: a request is read when its host and
/// its poison are known, by [`read_request`].
#[derive(Clone, Copy)]
pub enum Meaning {
    /// Nothing: it has no word, or it is a comment.
    Nothing,
    /// A fence of this host.
    Fence(u8),
    /// A request: its host, whether it is poisoned, and the request.
    Ask(u8, bool, Request),
}

/// What a line states, before the request is read.
#[derive(Clone, Copy)]
pub enum Head<'a> {
    /// Nothing: it has no word, or it is a comment.
    Nothing,
    /// A fence of this host.
    Fence(u8),
    /// A request: its host, whether it is poisoned, and the rest of the line from the command on.
    Ask(u8, bool, &'a [u8]),
}

/// Addresses are below 2^34.
const ADDRESSES: u64 = 1 << 34;

// A number below the limit, or else this kind of fault.
fn number_word(kind: ScriptKind, limit: u64, line: &[u8]) -> Result<(u64, &[u8]), ScriptKind>
    ensures value { Gives (λ p. (p.0, words_of p.1.now)) result
        (number_word kind limit (words_of line.now)) }
    ensures small { IfOk result (λ p. p.0 < limit) }
{
    reading::number_word(ScriptKind::Words, kind, kind, limit, line)
}

// The number of a host or of a cube.
fn small_word(kind: ScriptKind, limit: u8, line: &[u8]) -> Result<(u8, &[u8]), ScriptKind>
    ensures value { Gives (λ p. (p.0, words_of p.1.now)) result
        (number_word kind limit (words_of line.now)) }
    ensures small { IfOk result (λ p. p.0 < limit) }
{
    let (number, rest) = number_word(kind, u64::from(limit), line)?;
    Ok((number as u8, rest))
}

#[tactic(auto, unfolding(crate::specs::Meaning::command_word))]
fn command_word(line: &[u8]) -> Result<(Command, &[u8]), ScriptKind>
    ensures value { Gives (λ p. (p.0, words_of p.1.now)) result (command_word (words_of line.now)) }
    ensures asks { IfOk result (λ p. family_of p.0 ≡ families.Ask) }
{
    let (word, rest) = next_word(ScriptKind::Words, line)?;
    match command_of(word) {
        Some(command) => Ok((command, rest)),
        None => Err(ScriptKind::Command),
    }
}

/// A request that was read: its payload is where it was read to.
#[derive(Clone, Copy)]
pub struct Asked<'a> {
    /// The command, which is a request's.
    pub command: Command,
    /// The cube, which is below the number of cubes.
    pub cube: u8,
    /// The address, which is below 2^34.
    pub address: u64,
    /// The payload bytes, as many as the command has.
    pub payload: &'a [u8],
}

/// A command, a cube, an address and, where the command has one, a payload. The fault is the first
/// one.
#[tactic(auto, unfolding(crate::specs::Meaning::request_of))]
pub fn read_request<'a>(cubes: u8, line: &[u8], room: &'a mut Room) -> Result<Asked<'a>, ScriptKind>
    requires { cubes ≤ most_cubes }
    ensures value { Gives request_in result (request_of cubes (words_of line.now)) }
    ensures cube { IfOk result (λ asked. asked.cube < cubes) }
    ensures request { IfOk result (λ asked. IsRequest (request_in asked)) }
{
    let (command, rest) = command_word(line)?;
    let (cube, rest) = small_word(ScriptKind::Cube, cubes, rest)?;
    let (address, rest) = number_word(ScriptKind::Address, ADDRESSES, rest)?;
    let payload = payload_word(command, rest, room)?;
    Ok(Asked {
        command,
        cube,
        address,
        payload,
    })
}

#[tactic(auto, unfolding(crate::specs::Meaning::fence_of))]
fn fence<'a>(host: u8, line: &[u8]) -> Result<Head<'a>, ScriptKind>
    ensures value { (cubes : ℕ) → meaning_from cubes result ≡ fence_of host (words_of line.now) }
    ensures within { (hosts : ℕ) → host < hosts → IfOk result (IsOfHost hosts) }
{
    no_word(ScriptKind::Words, line)?;
    Ok(Head::Fence(host))
}

// A host, and then a fence or a request, which may be poisoned.
#[tactic(auto, unfolding(crate::specs::Meaning::statement_of))]
fn statement(hosts: u8, line: &[u8]) -> Result<Head<'_>, ScriptKind>
    ensures value { (cubes : ℕ) → meaning_from cubes result
        ≡ statement_of hosts cubes (words_of line.now) }
    ensures within { IfOk result (IsOfHost hosts) }
{
    let (host, from_second) = small_word(ScriptKind::Host, hosts, line)?;
    let (second, rest) = next_word(ScriptKind::Words, from_second)?;
    if second == b"fence".as_slice() {
        return fence(host, rest);
    }
    if second == b"poison".as_slice() {
        return Ok(Head::Ask(host, true, rest));
    }
    Ok(Head::Ask(host, false, from_second))
}

/// What a line states, word by word from left to right, up to the command of a request. The fault
/// is the first one.
#[tactic(auto, unfolding(crate::specs::Meaning::meaning_of))]
pub fn head_of(hosts: u8, line: &[u8]) -> Result<Head<'_>, ScriptKind>
    ensures value { (cubes : ℕ) → meaning_from cubes result
        ≡ meaning_of hosts cubes (words_of line.now) }
    ensures within { IfOk result (IsOfHost hosts) }
{
    if is_passed_over(line) {
        return Ok(Head::Nothing);
    }
    statement(hosts, line)
}
