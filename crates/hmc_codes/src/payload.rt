//! The payload of a packet.

ghost use Rattle.std.specs.Prelude.{◌≡◌, ◌≤◌, ◌↔◌, [], length, IsTrue, IsSome, IfSome};
ghost use Rattle.hmc_codes.specs.Bytes.{IsBytes, padded_bytes};

use std::marker::Model;

// The most bytes that a payload has.
const MOST_BYTES: usize = 256;

/// At most 256 bytes, which no call changes. Contracts see the list of them.
#[derive(Clone, Copy)]
pub struct Payload {
    // The bytes after the first `len` are zero.
    bytes: [u8; 256],
    len: usize,
}

impl Model for Payload {
    ghost use Rattle.std.specs.Prelude.{◌≡◌, ◌≤◌, ℕ, List, length, take};
    ghost use Rattle.hmc_codes.specs.Bytes.{IsBytes, padded_bytes};
    ghost use Rattle.hmc_codes.specs.Padding.{length-front};
    ghost use Rattle.std.proofs.Common.{sym};

    ghost Value = { List ℕ };

    ghost view = { λ p. take p.len p.bytes };

    ghost invariant = { λ p. (p.len ≤ 256)
        × (p.bytes ≡ padded_bytes 256 (take p.len p.bytes))
        × IsBytes p.bytes };

    ghost inverse = { λ bytes. record { bytes = padded_bytes 256 bytes; len = length bytes } };

    ghost inverse_ok = { λ p kept i. record {
      bytes = sym kept.1 i;
      len = length-front 256 p.len p.bytes kept.0 kept.1 i;
    } };
}

// The bytes, and zeros after them.
fn array_of(bytes: &[u8]) -> [u8; 256]
    requires { length bytes.now ≤ 256 }
    ensures bytes { result ≡ padded_bytes 256 bytes.now }
    ensures are_bytes { IsBytes result }
{
    let mut array = [0; 256];
    array[..bytes.len()].copy_from_slice(bytes);
    array
}

impl Payload {
    /// No bytes.
    pub fn empty() -> Self
        ensures { result ≡ [] }
    {
        Payload {
            bytes: array_of(&[]),
            len: 0,
        }
    }

    /// These bytes, or `None` if they are more than 256.
    pub fn from_slice(bytes: &[u8]) -> Option<Self>
        ensures fits { IsSome result ↔ (length bytes.now ≤ 256) }
        ensures bytes { IfSome result (λ payload. payload ≡ bytes.now) }
    {
        if bytes.len() > MOST_BYTES {
            return None;
        }
        Some(Payload {
            bytes: array_of(bytes),
            len: bytes.len(),
        })
    }

    /// The bytes, 0 to 256 of them.
    pub fn as_slice(&self) -> &[u8]
        ensures bytes { result.now ≡ self.now }
        ensures few { length self.now ≤ 256 }
        ensures are_bytes { IsBytes self.now }
    {
        &self.bytes[..self.len]
    }

    /// The bytes, and zeros after them.
    pub fn padded(&self) -> &[u8; 256]
        ensures { result.now ≡ padded_bytes 256 self.now }
    {
        &self.bytes
    }

    /// The number of bytes, 0 to 256.
    pub fn len(&self) -> usize
        ensures { result ≡ length self.now }
    {
        self.len
    }

    /// Whether there are no bytes.
    pub fn is_empty(&self) -> bool
        ensures { IsTrue result ↔ (self.now ≡ []) }
    {
        self.len == 0
    }
}
