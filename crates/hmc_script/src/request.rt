//! Requests within a line, where words may follow.

ghost use Rattle.std.specs.Prelude.{◌≡◌, ◌<◌, ◌^◌, [], IfSome};
ghost use Rattle.hmc_codes.specs.Commands.{family_of, payload_len_of};
ghost use Rattle.hmc_codes.specs.Limits.{most_cubes};
ghost use Rattle.hmc_codes.specs.declared.family.Family.TheVariants as families;
ghost use Rattle.hmc_words.specs.Taking.{Takes, take_number};
ghost use Rattle.hmc_script.specs.Payload.{IsPayload};
ghost use Rattle.hmc_script.specs.Taken.{take_command, take_operand, take_payload, take_request};

use crate::command::command_of;
use crate::payload::payload;
use hmc_codes::{Command, MOST_CUBES, Payload, Request};
use hmc_words::WordReader;

/// Addresses are below 2^34.
const ADDRESSES: u64 = 1 << 34;

#[tactic(auto, unfolding(crate::specs::Taken::take_command))]
fn take_command(words: &mut WordReader) -> Option<Command>
    ensures value { Takes (λ command. command) result words.new (take_command words.old) }
    ensures asks { IfSome result (λ command. family_of command ≡ families.Ask) }
{
    let word = words.word()?;
    command_of(word)
}

fn take_cube(words: &mut WordReader) -> Option<u8>
    ensures value { Takes (λ cube. cube) result words.new (take_number most_cubes words.old) }
    ensures small { IfSome result (λ cube. cube < most_cubes) }
{
    let cube = words.number(u64::from(MOST_CUBES))?;
    Some(cube as u8)
}

// No bytes, where the command has no payload.
#[tactic(auto, using(crate::proofs::TakenLemmas::no_payload_fits))]
fn no_payload(command: Command) -> Payload
    requires none { payload_len_of command ≡ 0 }
    ensures value { result ≡ [] }
    ensures fits { IsPayload command result }
{
    Payload::empty()
}

#[tactic(auto, unfolding(crate::specs::Taken::take_operand))]
fn take_operand(words: &mut WordReader, command: Command) -> Option<Payload>
    ensures value { Takes (λ payload. payload) result words.new
        (take_operand command words.old) }
    ensures fits { IfSome result (IsPayload command) }
{
    let word = words.word()?;
    payload(command, word)
}

#[tactic(auto, unfolding(crate::specs::Taken::take_payload))]
fn take_payload(words: &mut WordReader, command: Command) -> Option<Payload>
    ensures value { Takes (λ payload. payload) result words.new
        (take_payload command words.old) }
    ensures fits { IfSome result (IsPayload command) }
{
    if command.payload_len() == 0 {
        Some(no_payload(command))
    } else {
        take_operand(words, command)
    }
}

/// The request that the words begin with, in the form that a script has after the host: a command,
/// a cube below 8, an address below 2^34 and, where the command has one, a payload. These words are
/// taken. None if the words don't begin with a request; some of them may be taken then too.
#[tactic(auto, unfolding(crate::specs::Taken::take_request))]
pub fn take_request(words: &mut WordReader) -> Option<Request>
    ensures value { Takes (λ request. request) result words.new (take_request words.old) }
{
    let command = take_command(words)?;
    let cube = take_cube(words)?;
    let address = words.number(ADDRESSES)?;
    let payload = take_payload(words, command)?;
    Some(Request {
        command,
        cube,
        address,
        payload,
    })
}
