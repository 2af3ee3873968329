//! The payload of a request, as a word.

ghost use Rattle.std.specs.Prelude.{◌≡◌, ◌≤◌, ◌<◌, ◌^◌, IfOk, IfSome, length, option_map, Some, []};
ghost use Rattle.std.specs.Result.{result_ok};
ghost use Rattle.hex.specs.Hex.{decode_sized};
ghost use Rattle.hmc_codes.specs.Bytes.{IsBytes};
ghost use Rattle.hmc_codes.specs.Commands.{payload_len_of};
ghost use Rattle.hmc_codes.specs.declared.command.Command.TheVariants.{Mdwr};
ghost use Rattle.hmc_text.specs.Words.{words_of};
ghost use Rattle.hmc_text.specs.Number.{below, number_of};
ghost use Rattle.hmc_text.specs.Reading.{Gives};
ghost use Rattle.hmc_script.specs.Payload.{value_bytes, payload_of, no_payload, some_payload, payload_word, IsPayload};

use crate::ScriptKind;
use hmc_codes::{Command, Payload};
use hmc_text::number::below;
use hmc_text::reading::{next_word, no_word};

/// Values are below 2^32.
const VALUES: u64 = 1 << 32;

/// The most bytes that a payload has.
pub const MOST_BYTES: usize = 256;

/// Where the payload of a request is read to.
pub type Room = [u8; MOST_BYTES];

// The payload with these bytes, each of which is a byte.
fn made(bytes: &[u8]) -> Option<Payload>
    requires { length bytes.now ≤ 256 }
    ensures value { result ≡ Some bytes.now }
    ensures bytes { IsBytes bytes.now }
{
    let made = Payload::from_slice(bytes)?;
    let _ = made.as_slice();
    Some(made)
}

// The value's four bytes and twelve zero bytes.
fn value_bytes(value: u32) -> [u8; 16]
    ensures { result ≡ value_bytes value }
{
    let mut bytes = [0; 16];
    bytes[..4].copy_from_slice(&value.to_le_bytes());
    bytes
}

// Does nothing. Its contract is that bytes are below 256.
fn are_bytes(bytes: &[u8])
    ensures { IsBytes bytes.now }
{
    let _ = bytes;
}

// The payload of an mdwr with this value.
fn value_payload<'a>(word: &[u8], room: &'a mut Room) -> Option<&'a [u8]>
    ensures value { option_map (λ p. p.now) result
        ≡ option_map value_bytes (below (2 ^ 32) (number_of word.now)) }
    ensures fits { IfSome result (λ p. IsPayload Mdwr p.now) }
{
    let value = below(VALUES, word)? as u32;
    let payload = &mut room[..16];
    payload.copy_from_slice(&value_bytes(value));
    are_bytes(payload);
    Some(payload)
}

// The payload of `len` bytes with these digits, as `hex_payload` has it.
fn hex_bytes<'a>(len: usize, word: &[u8], room: &'a mut Room) -> Option<&'a [u8]>
    requires { len ≤ 256 }
    ensures value { option_map (λ p. p.now) result ≡ result_ok (decode_sized word.now len) }
    ensures length { IfSome result (λ p. length p.now ≡ len) }
    ensures bytes { IfSome result (λ p. IsBytes p.now) }
{
    let payload = &mut room[..len];
    if hex::decode_to_slice(word, payload).is_err() {
        return None;
    }
    are_bytes(payload);
    Some(payload)
}

/// The payload of `len` bytes, at most 256, with these digits: two hexadecimal digits a byte, in
/// either case. None if the word is anything else.
pub fn hex_payload(len: usize, word: &[u8]) -> Option<Payload>
    requires { len ≤ 256 }
    ensures value { result ≡ result_ok (decode_sized word.now len) }
    ensures length { IfSome result (λ payload. length payload ≡ len) }
    ensures bytes { IfSome result IsBytes }
{
    let mut room = [0; MOST_BYTES];
    made(hex_bytes(len, word, &mut room)?)
}

// The bytes of the payload that a word represents, or None if it is no payload of the command.
#[tactic(auto, unfolding(crate::specs::Payload::payload_of))]
fn operand<'a>(command: Command, word: &[u8], room: &'a mut Room) -> Option<&'a [u8]>
    ensures value { option_map (λ p. p.now) result ≡ payload_of command word.now }
    ensures fits { IfSome result (λ p. IsPayload command p.now) }
{
    if command.is_mdwr() {
        value_payload(word, room)
    } else {
        hex_bytes(command.payload_len(), word, room)
    }
}

/// The payload that a word represents, or None if it is no payload of the command.
pub fn payload(command: Command, word: &[u8]) -> Option<Payload>
    ensures value { result ≡ payload_of command word.now }
    ensures fits { IfSome result (IsPayload command) }
{
    let mut room = [0; MOST_BYTES];
    made(operand(command, word, &mut room)?)
}

// The end of a line.
#[tactic(auto, unfolding(crate::specs::Payload::no_payload))]
fn no_payload<'a>(line: &[u8]) -> Result<&'a [u8], ScriptKind>
    ensures value { Gives (λ p. p.now) result (no_payload (words_of line.now)) }
    ensures empty { IfOk result (λ p. p.now ≡ []) }
{
    no_word(ScriptKind::Words, line)?;
    Ok(&[])
}

// A payload's word, and the end of a line.
#[tactic(auto, unfolding(crate::specs::Payload::some_payload))]
fn some_payload<'a>(
    command: Command,
    line: &[u8],
    room: &'a mut Room,
) -> Result<&'a [u8], ScriptKind>
    ensures value { Gives (λ p. p.now) result (some_payload command (words_of line.now)) }
    ensures fits { IfOk result (λ p. IsPayload command p.now) }
{
    let (word, rest) = next_word(ScriptKind::Words, line)?;
    let Some(payload) = operand(command, word, room) else {
        return Err(ScriptKind::Payload);
    };
    no_word(ScriptKind::Words, rest)?;
    Ok(payload)
}

/// The payload after a request's address, after which no word may follow. The line has a word for
/// it only where the command has a payload.
#[tactic(auto, unfolding(crate::specs::Payload::payload_word))]
pub fn payload_word<'a>(
    command: Command,
    line: &[u8],
    room: &'a mut Room,
) -> Result<&'a [u8], ScriptKind>
    ensures value { Gives (λ p. p.now) result (payload_word command (words_of line.now)) }
    ensures fits { IfOk result (λ p. IsPayload command p.now) }
{
    if command.payload_len() == 0 {
        no_payload(line)
    } else {
        some_payload(command, line, room)
    }
}
