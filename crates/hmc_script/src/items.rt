//! Requests in memory.

ghost use Rattle.std.specs.Prelude.{◌≡◌, ◌<◌, ◌≤◌, ◌+◌, [], ◌∷◌, ◌++◌, length, take, slice_get, option_map, Some, IfOk, OnOk, OnErr};
ghost use Rattle.hmc_codes.specs.Limits.{most_asked, most_hosts};
ghost use Rattle.hmc_codes.specs.Request.{IsRequest};
ghost use Rattle.hmc_script.specs.Items.{AreItems, asked_item, outline_of, of_host};
ghost use Rattle.hmc_script.specs.Stored.{request_with, item_with};

use crate::stored::{Short, item_of, payload_bytes};
use crate::{Item, Outline};
use hmc_codes::{Memory, Request};
use std::alloc::Global;
use std::marker::Model;

/// At most `MOST_ASKED` requests of hosts, in order. Contracts see them as a list. The payload
/// bytes of all requests are in one vector, in order.
#[derive(Drop)]
pub struct Items {
    shorts: Vec<Short>,
    bytes: Vec<u8>,
}

impl Model for Items {
    ghost use Rattle.std.specs.Prelude.{List};
    ghost use Rattle.hmc_script.specs.Items.{ItemFields};
    ghost use Rattle.hmc_script.specs.Stored.{items_in, IsStored};

    ghost Value = { List ItemFields };

    ghost view = { λ s. items_in s.bytes.items s.shorts.items };

    ghost invariant = { λ s. IsStored s.bytes.items s.shorts.items };
}

impl Items {
    /// No requests. It takes no memory.
    pub fn new(alloc: Global) -> Self
        ensures { result ≡ [] }
    {
        Items {
            shorts: Vec::new(alloc),
            bytes: Vec::new(alloc),
        }
    }

    /// Does nothing. Its contract is what every list of requests keeps.
    pub fn invariant(&self)
        ensures { AreItems self.now }
    {
        let _ = &self.shorts;
    }

    /// The number of requests.
    pub fn len(&self) -> u32
        ensures { result ≡ length self.now }
    {
        self.shorts.len() as u32
    }

    /// The request at this place, counted from 0 and below the length.
    pub fn item(&self, at: u32) -> Item
        requires { at < length self.now }
        ensures item { slice_get self.now at ≡ Some result }
        ensures host { result.host < most_hosts }
    {
        item_of(&self.shorts[at as usize], &self.bytes)
    }

    /// What decides when the request at this place may be given, if there is one.
    pub fn outline(&self, at: u32) -> Option<Outline>
        ensures { result ≡ option_map outline_of (slice_get self.now at) }
    {
        let short = self.shorts.get(at as usize)?;
        Some(Outline {
            fenced: short.fenced,
            poisoned: short.poisoned,
            command: short.command,
        })
    }

    /// The requests of this host alone, in their order. `Memory` if out of memory.
    pub fn of_host(&self, alloc: Global, host: u8) -> Result<Items, Memory>
        ensures { IfOk result (λ own. own ≡ of_host host self.now) }
    {
        self.invariant();
        let mut own = Items::new(alloc);
        'items: for at in 0..self.len() {
            if let Err(memory) = self.append_own(at, host, &mut own) {
                return Err(memory);
            }
        }
        Ok(own)
    }

    // Appends the request at this place to the earlier ones of a host, if it is the host's.
    fn append_own(&self, at: u32, host: u8, own: &mut Items) -> Result<(), Memory>
        requires at { at < length self.now }
        requires few { length self.now ≤ most_asked }
        requires earlier { own.old ≡ of_host host (take at self.now) }
        ensures { OnOk result (own.new ≡ of_host host (take (at + 1) self.now)) }
    {
        let short = &self.shorts[at as usize];
        if short.host != host {
            return Ok(());
        }
        own.push(short, payload_bytes(short, &self.bytes))?;
        Ok(())
    }

    /// Appends an item with this payload, wherever the item's payload was.
    pub(crate) fn push(&mut self, short: &Short, payload: &[u8]) -> Result<(), Memory>
        requires room { length self.old < most_asked }
        requires host { short.now.host < most_hosts }
        requires request { IsRequest (request_with short.now payload.now) }
        ensures ok { OnOk result
            (self.new ≡ self.old ++ item_with short.now payload.now ∷ []) }
        ensures err { OnErr result (self.new ≡ self.old) }
    {
        let start = self.bytes.len();
        self.bytes.extend_from_slice(payload)?;
        self.shorts.push(Short {
            host: short.host,
            fenced: short.fenced,
            poisoned: short.poisoned,
            command: short.command,
            cube: short.cube,
            address: short.address,
            start,
        })?;
        Ok(())
    }

    /// Appends a request, with a fence before it or without. Its host is below 8, and there
    /// are fewer than `MOST_ASKED` requests. Where it is out of memory nothing changes.
    pub fn append(
        &mut self,
        host: u8,
        fenced: bool,
        poisoned: bool,
        request: &Request,
    ) -> Result<(), Memory>
        requires room { length self.old < most_asked }
        requires host { host < most_hosts }
        ensures ok { OnOk result
            (self.new ≡ self.old ++ asked_item host fenced poisoned request.now ∷ []) }
        ensures err { OnErr result (self.new ≡ self.old) }
    {
        request.invariant();
        let short = Short {
            host,
            fenced,
            poisoned,
            command: request.command,
            cube: request.cube,
            address: request.address,
            start: 0,
        };
        self.push(&short, request.payload.as_slice())
    }

    /// Forgets all requests. Their memory is used again.
    pub fn clear(&mut self)
        ensures { self.new ≡ [] }
    {
        self.shorts.clear();
        self.bytes.clear();
    }
}
