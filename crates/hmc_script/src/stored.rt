//! The items of a script in memory.

ghost use Rattle.std.specs.Prelude.{◌≡◌, IfSome};
ghost use Rattle.hmc_codes.specs.Commands.{payload_len_of};
ghost use Rattle.hmc_codes.specs.Request.{IsRequest};
ghost use Rattle.hmc_script.specs.Stored.{item_of, IsInside};

use crate::Item;
use hmc_codes::{Command, Payload, Request};

/// An item whose payload is elsewhere: `payload_len` bytes of its command.
#[derive(Clone, Copy)]
pub struct Short {
    /// The host that asks.
    pub host: u8,
    /// Whether a fence is before the request.
    pub fenced: bool,
    /// Whether the request is poisoned.
    pub poisoned: bool,
    /// The request's command.
    pub command: Command,
    /// The request's cube.
    pub cube: u8,
    /// The request's address.
    pub address: u64,
    /// The place of the payload's first byte.
    pub start: usize,
}

/// The payload bytes of a short item.
pub fn payload_bytes<'a>(short: &Short, bytes: &'a [u8]) -> &'a [u8]
    requires { IsInside bytes.now short.now }
    ensures { result.now ≡ (item_of bytes.now short.now).request.payload }
{
    let len = short.command.payload_len();
    &bytes[short.start..short.start + len]
}

// The payload of a short item.
fn payload_of(short: &Short, bytes: &[u8]) -> Payload
    requires { IsInside bytes.now short.now }
    ensures { result ≡ (item_of bytes.now short.now).request.payload }
{
    Payload::from_slice(payload_bytes(short, bytes)).unwrap()
}

/// The item of a short item, whose payload is among these bytes.
pub fn item_of(short: &Short, bytes: &[u8]) -> Item
    requires inside { IsInside bytes.now short.now }
    requires request { IsRequest (item_of bytes.now short.now).request }
    ensures { result ≡ item_of bytes.now short.now }
{
    Item {
        host: short.host,
        fenced: short.fenced,
        poisoned: short.poisoned,
        request: Request {
            command: short.command,
            cube: short.cube,
            address: short.address,
            payload: payload_of(short, bytes),
        },
    }
}
