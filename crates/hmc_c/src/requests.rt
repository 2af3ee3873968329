//! Requests by numbers.

ghost use Rattle.std.specs.Prelude.{◌≡◌, ◌≤◌, ◌++◌, List, None, Some, length, replicate, take};
ghost use Rattle.hmc_codes.specs.Bytes.{IsBytes};
ghost use Rattle.hmc_codes.specs.Commands.{payload_len_of};
ghost use Rattle.hmc_entries.specs.declared.entry.Entry.{Entry};
ghost use Rattle.hmc_journal.specs.Setup.{Setup};
ghost use Rattle.hmc_script.specs.Payload.{IsPayload};
ghost use Rattle.hmc_c.specs.Asks.{Asked, IsAsked};
ghost use Rattle.hmc_c.specs.Handles.{HandleKeepsParts, HandleStands, Stands, laid_in};
ghost use Rattle.hmc_c.specs.Requests.{payload_by, request_named, request_with};
ghost use Rattle.hmc_c.specs.Kept.{KeepsParts};
ghost use Rattle.hmc_c.specs.Status.{closed};

use crate::handle::Handle;
use crate::held::Held;
use crate::status::BAD;
use hmc_codes::{Command, Family, MOST_CUBES, Payload, Request};
use std::alloc::Global;

// The first four bytes, and zeros after them up to 16.
fn value_of(bytes: &[u8]) -> [u8; 16]
    requires { length bytes.now ≡ 16 }
    ensures { result ≡ take 4 bytes.now ++ replicate 12 0 }
{
    let mut value = [0; 16];
    value[..4].copy_from_slice(&bytes[..4]);
    value
}

// The payload with these bytes.
fn made(bytes: &[u8]) -> Option<Payload>
    requires { length bytes.now ≤ 256 }
    ensures value { result ≡ Some bytes.now }
    ensures bytes { IsBytes bytes.now }
{
    let made = Payload::from_slice(bytes)?;
    let _ = made.as_slice();
    Some(made)
}

// The payload that these bytes are for a command, which has as many.
fn payload_by(command: Command, bytes: &[u8]) -> Option<Payload>
    requires { length bytes.now ≡ payload_len_of command }
    ensures value { result ≡ Some (payload_by command bytes.now) }
    ensures fits { IsPayload command (payload_by command bytes.now) }
{
    if command.is_mdwr() {
        made(&value_of(bytes))
    } else {
        made(bytes)
    }
}

// The request with this command, if it makes one.
fn request_with(command: Command, cube: u8, address: u64, bytes: &[u8]) -> Option<Request>
    ensures { result ≡ request_with (Some command) cube address bytes.now }
{
    if command.family() != Family::Ask
        || cube >= MOST_CUBES
        || address >= 1 << 34
        || bytes.len() != command.payload_len()
    {
        return None;
    }
    let payload = payload_by(command, bytes)?;
    Some(Request {
        command,
        cube,
        address,
        payload,
    })
}

// The request of these numbers, if they are one.
fn request_named(code: u8, cube: u8, address: u64, bytes: &[u8]) -> Option<Request>
    ensures { result ≡ request_named code cube address bytes.now }
{
    let command = Command::from_code(code)?;
    request_with(command, cube, address, bytes)
}

// Asks a host for this request, if there is one.
fn ask(held: &mut Held, host: u8, fenced: bool, poisoned: bool, request: Option<Request>) -> u8
    ensures stands { (setup : Setup) (past : List Entry) → Stands held.old setup past →
        Asked result held.old held.new setup past host fenced poisoned request }
    ensures laid { held.new.laid ≡ held.old.laid }
    ensures parts { KeepsParts held.old.kept held.new.kept }
{
    let Some(request) = request else {
        return BAD;
    };
    held.kept.ask(host, fenced, poisoned, &request)
}

/// Asks a host for one request, which it gives after its others: the code of its command (docs/
/// packets.md), the number of its cube, an address below 2^34, and as many payload bytes as the
/// command has. Of the 16 bytes of an `mdwr` the first four count. Where it is fenced, the host
/// waits before it until none of its tags is out; where it is poisoned, its packet is.
///
/// 0: it is asked. 1: out of memory. 6: these numbers are no request. 9: the handle is closed.
/// 12: there is no such host. 13: there is no such cube. 14: the host is finished. 15: it was asked
/// for as many requests as it may be. Where it isn't asked nothing changes.
#[unsafe(no_mangle)]
pub extern "C" fn hmc_request(
    alloc: Global,
    handle: &mut Handle,
    host: u8,
    fenced: bool,
    poisoned: bool,
    code: u8,
    cube: u8,
    address: u64,
    payload: &[u8],
) -> u8
    ensures stands { (setup : Setup) (past : List Entry) →
        HandleStands handle.old.value setup past →
        IsAsked result handle.old.value handle.new.value setup past host fenced poisoned
        (request_named code cube address payload.now) }
    ensures laid { laid_in handle.new.value ≡ laid_in handle.old.value }
    ensures closed { handle.old.value ≡ None → result ≡ closed }
    ensures parts { HandleKeepsParts handle.old.value handle.new.value }
{
    with_held!(alloc, handle, |held| {
        let request = request_named(code, cube, address, payload);
        ask(&mut held, host, fenced, poisoned, request)
    })
}
