//! The tags of a host.

ghost use Rattle.std.specs.Prelude.{◌≡◌, ◌≤◌, ◌<◌, ◌+◌, ◌^◌, IfOk, false, not, is_some, length, slice_set};
ghost use Rattle.std.specs.Option.{ForSome};
ghost use Rattle.hmc_codes.specs.Limits.{tags as all_tags};
ghost use Rattle.hmc_host.specs.Tags.{none_out, number_out, is_some_out, lowest_free, with_out, past, IsFree, IsOut};

use hmc_codes::{Memory, TAGS};
use std::alloc::Global;
use std::marker::Model;

/// Which tags of a host are out. Contracts see a flag for each of them.
#[derive(Drop)]
pub struct Tags {
    flags: Vec<bool>,
    // The number of those that are out.
    number: u16,
    // All tags below this one are out.
    from: u16,
}

impl Model for Tags {
    ghost use Rattle.std.specs.Prelude.{List, Bool};
    ghost use Rattle.hmc_host.specs.Tags.{AreKept};

    ghost Value = { List Bool };

    ghost view = { λ t. t.flags.items };

    ghost invariant = { λ t. AreKept t.flags.items t.number t.from };
}

impl Tags {
    /// No tag is out.
    #[tactic(auto, unfolding(crate::specs::Tags::none_out))]
    pub fn new(alloc: Global) -> Result<Self, Memory>
        ensures { IfOk result (λ tags. tags ≡ none_out) }
    {
        let flags = vec![in alloc; false; TAGS as usize]?;
        Ok(Tags {
            flags,
            number: 0,
            from: 0,
        })
    }

    /// Does nothing. Its contract is the number of tags.
    pub fn invariant(&self)
        ensures { length self.now ≡ all_tags }
    {
        let _ = &self.flags;
    }

    /// The number of tags that are out.
    pub fn out(&self) -> u16
        ensures number { result ≡ number_out self.now }
        ensures few { result ≤ all_tags }
    {
        self.number
    }

    /// Whether some tag is out.
    pub fn is_some_out(&self) -> bool
        ensures { result ≡ is_some_out self.now }
    {
        0 < self.number
    }

    /// The lowest tag that isn't out, if there is one.
    pub fn lowest_free(&self) -> Option<u16>
        ensures lowest { result ≡ lowest_free self.now }
        ensures small { ForSome result (λ tag. tag < all_tags) }
    {
        let from = usize::from(self.from);
        let tag = first_unset(&self.flags[from..])?;
        Some((from + tag) as u16)
    }

    /// Whether all are out.
    pub fn are_all_out(&self) -> bool
        ensures { result ≡ not (is_some (lowest_free self.now)) }
    {
        self.number == TAGS
    }

    /// A tag that isn't out goes out, if there is one.
    pub fn take(&mut self, tag: Option<u16>)
        requires { ForSome tag (IsFree self.old) }
        ensures { self.new ≡ with_out tag self.old }
    {
        let Some(tag) = tag else {
            return;
        };
        self.flags[usize::from(tag)] = true;
        self.number += 1;
        self.from = past(self.from, tag);
    }

    /// A tag that is out no longer is.
    pub fn free(&mut self, tag: u16)
        requires { IsOut self.old tag }
        ensures { self.new ≡ slice_set self.old tag false }
    {
        self.flags[usize::from(tag)] = false;
        self.number -= 1;
        self.from = self.from.min(tag);
    }
}

// The first place whose flag is false.
fn first_unset(flags: &[bool]) -> Option<usize>
    ensures { result ≡ lowest_free flags.now }
{
    flags.iter().position(|out| !*out)
}

// One further, where this is the tag that goes out.
fn past(from: u16, tag: u16) -> u16
    requires { from + 1 < 2 ^ 16 }
    ensures { result ≡ past from tag }
{
    if from == tag { from + 1 } else { from }
}
