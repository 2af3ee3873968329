//! The requests that a host has not given yet.

ghost use Rattle.std.specs.Prelude.{◌≡◌, ◌<◌, ◌++◌, ◌∷◌, [], length, drop, slice_get, option_map, Some, OnOk, OnErr};
ghost use Rattle.hmc_codes.specs.Limits.{most_asked, most_hosts};
ghost use Rattle.hmc_script.specs.Items.{asked_item, outline_of};

use hmc_codes::{Memory, Request};
use hmc_script::{Item, Items, Outline};
use std::alloc::Global;
use std::marker::Model;
use std::mem::swap;

/// The requests of a host that wait to be given, in order. Contracts see them as a list.
///
/// The next one is in the front list, and a new one goes into the back list. Where all of the front
/// were given the two lists change places: those that were given are forgotten, and nothing is
/// copied. So the memory is that of the requests that waited at once.
#[derive(Drop)]
pub struct Waiting {
    front: Items,
    // The place of the next request in the front.
    at: u32,
    back: Items,
}

impl Model for Waiting {
    ghost use Rattle.std.specs.Prelude.{List};
    ghost use Rattle.hmc_script.specs.Items.{ItemFields};
    ghost use Rattle.hmc_host.specs.Waiting.{waiting_in, IsWaiting};

    ghost Value = { List ItemFields };

    ghost view = { λ w. waiting_in w.front w.at w.back };

    ghost invariant = { λ w. IsWaiting w.front w.at w.back };
}

impl Waiting {
    /// These requests, and none after them. It takes no memory.
    pub fn of(alloc: Global, items: Items) -> Self
        ensures { result ≡ items }
    {
        items.invariant();
        Waiting {
            front: items,
            at: 0,
            back: Items::new(alloc),
        }
    }

    /// The number of requests.
    pub fn len(&self) -> u32
        ensures { result ≡ length self.now }
    {
        self.front.len() - self.at + self.back.len()
    }

    /// What decides when the next request may be given, if there is one.
    pub fn outline(&self) -> Option<Outline>
        ensures { result ≡ option_map outline_of (slice_get self.now 0) }
    {
        self.front.outline(self.at)
    }

    /// The next request. There is one.
    pub fn first(&self) -> Item
        requires { 0 < length self.now }
        ensures { slice_get self.now 0 ≡ Some result }
    {
        self.front.item(self.at)
    }

    /// The next request was given, and is forgotten. There is one.
    pub fn drop_first(&mut self)
        requires { 0 < length self.old }
        ensures { self.new ≡ drop 1 self.old }
    {
        self.front.invariant();
        self.at += 1;
        if self.at == self.front.len() {
            self.at = 0;
            turn(&mut self.front, &mut self.back);
        }
    }

    /// Appends a request, with a fence before it or without. Its host is below 8, and fewer than
    /// `MOST_ASKED` requests wait. Where it is out of memory nothing changes.
    pub fn append(
        &mut self,
        host: u8,
        fenced: bool,
        poisoned: bool,
        request: &Request,
    ) -> Result<(), Memory>
        requires room { length self.old < most_asked }
        requires host { host < most_hosts }
        ensures ok { OnOk result
            (self.new ≡ self.old ++ asked_item host fenced poisoned request.now ∷ []) }
        ensures err { OnErr result (self.new ≡ self.old) }
    {
        self.back.append(host, fenced, poisoned, request)?;
        if self.at == self.front.len() {
            self.at = 0;
            turn(&mut self.front, &mut self.back);
        }
        Ok(())
    }
}

// The requests of the back are those of the front from now on. The front's are forgotten.
fn turn(front: &mut Items, back: &mut Items)
    ensures front { front.new ≡ back.old }
    ensures back { back.new ≡ [] }
{
    swap(front, back);
    back.clear();
}
