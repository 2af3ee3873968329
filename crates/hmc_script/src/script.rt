//! Scripts.

ghost use Rattle.std.specs.Prelude.{◌≡◌, ◌<◌, [], ◌∷◌, ◌++◌, length, slice_get, option_map, Some, false, IfOk, OnOk, OnErr};
ghost use Rattle.hmc_codes.specs.Limits.{most_hosts, most_requests};
ghost use Rattle.hmc_codes.specs.Request.{IsRequest};
ghost use Rattle.hmc_script.specs.Items.{IsScript, asked_item, outline_of, of_host};
ghost use Rattle.hmc_script.specs.Stored.{request_with, item_with};

use crate::stored::Short;
use crate::{Item, Items, Outline};
use hmc_codes::{Memory, Request};
use std::alloc::Global;
use std::marker::Model;

/// At most `MOST_REQUESTS` requests of hosts, in order. Contracts see them as a list.
#[derive(Drop)]
pub struct Script {
    items: Items,
}

impl Model for Script {
    ghost use Rattle.std.specs.Prelude.{List};
    ghost use Rattle.hmc_script.specs.Items.{ItemFields, IsScript};

    ghost Value = { List ItemFields };

    ghost view = { λ s. s.items };

    ghost invariant = { λ s. IsScript s.items };
}

impl Script {
    /// A script without requests. It takes no memory.
    pub fn new(alloc: Global) -> Self
        ensures { result ≡ [] }
    {
        Script {
            items: Items::new(alloc),
        }
    }

    /// Does nothing. Its contract is what every script keeps.
    pub fn invariant(&self)
        ensures { IsScript self.now }
    {
        let _ = &self.items;
    }

    /// The number of requests.
    pub fn len(&self) -> u32
        ensures { result ≡ length self.now }
    {
        self.items.len()
    }

    /// The request at this place, counted from 0 and below the length.
    pub fn item(&self, at: u32) -> Item
        requires { at < length self.now }
        ensures item { slice_get self.now at ≡ Some result }
        ensures host { result.host < most_hosts }
    {
        self.items.item(at)
    }

    /// What decides when the request at this place may be given, if there is one.
    pub fn outline(&self, at: u32) -> Option<Outline>
        ensures { result ≡ option_map outline_of (slice_get self.now at) }
    {
        self.items.outline(at)
    }

    /// The requests of this host alone, in their order. `Memory` if out of memory.
    pub fn of_host(&self, alloc: Global, host: u8) -> Result<Items, Memory>
        ensures { IfOk result (λ own. own ≡ of_host host self.now) }
    {
        self.items.of_host(alloc, host)
    }

    /// Appends an item. Its host is below 8, and the script has fewer than `MOST_REQUESTS`
    /// requests. Where it is out of memory nothing changes.
    pub fn append(&mut self, item: &Item) -> Result<(), Memory>
        requires host { item.now.host < most_hosts }
        requires room { length self.old < most_requests }
        ensures ok { OnOk result (self.new ≡ self.old ++ item.now ∷ []) }
        ensures err { OnErr result (self.new ≡ self.old) }
    {
        item.request.invariant();
        self.items
            .append(item.host, item.fenced, item.poisoned, &item.request)
    }

    /// Appends an item with this payload, as `append` does.
    pub(crate) fn push(&mut self, short: &Short, payload: &[u8]) -> Result<(), Memory>
        requires room { length self.old < most_requests }
        requires host { short.now.host < most_hosts }
        requires request { IsRequest (request_with short.now payload.now) }
        ensures ok { OnOk result
            (self.new ≡ self.old ++ item_with short.now payload.now ∷ []) }
        ensures err { OnErr result (self.new ≡ self.old) }
    {
        self.items.push(short, payload)
    }

    /// Appends a request without a fence. Its host is below 8, and the script has fewer than
    /// `MOST_REQUESTS` requests. Where it is out of memory nothing changes.
    pub fn add(&mut self, host: u8, poisoned: bool, request: Request) -> Result<(), Memory>
        requires host { host < most_hosts }
        requires room { length self.old < most_requests }
        ensures ok { OnOk result
            (self.new ≡ self.old ++ asked_item host false poisoned request ∷ []) }
        ensures err { OnErr result (self.new ≡ self.old) }
    {
        request.invariant();
        self.items.append(host, false, poisoned, &request)
    }
}
