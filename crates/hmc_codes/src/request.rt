//! Requests.

ghost use Rattle.hmc_codes.specs.Request.{IsRequest};

use crate::{Command, Payload};
use std::marker::Model;

/// What a host asks of a cube.
#[derive(Clone, Copy)]
pub struct Request {
    /// Of the family Ask.
    pub command: Command,
    /// The cube's number, below 8.
    pub cube: u8,
    /// Below 2^34; the number of a register for `mdrd` and `mdwr`.
    pub address: u64,
    /// As long as `payload_len` of the command. The payload of an `mdwr` is the value in four
    /// little-endian bytes, and twelve zero bytes.
    pub payload: Payload,
}

impl Model for Request {
    ghost use Rattle.hmc_codes.specs.Request.{RequestFields, IsRequest};

    ghost Value = { RequestFields };

    ghost view = { λ r. record {
      command = r.command;
      cube = r.cube;
      address = r.address;
      payload = r.payload;
    } };

    ghost invariant = { λ r. IsRequest (view r) };

    ghost inverse = { λ r. record {
      command = r.command;
      cube = r.cube;
      address = r.address;
      payload = r.payload;
    } };
}

impl Request {
    /// Does nothing. Its contract is what every request keeps.
    pub fn invariant(&self)
        ensures { IsRequest self.now }
    {
        let _ = &self.command;
    }
}
