//! Handles: a session in the hands of a caller in C.

ghost use Rattle.std.specs.Prelude.{◌≡◌};
ghost use Rattle.std.specs.Option.{MatchOption};
ghost use Rattle.std.specs.declared.option.Option.{Option as Maybe};
ghost use Rattle.std.specs.declared.option.Option.TheVariants.{None, Some};
ghost use Rattle.hmc_c.specs.declared.held.Held.{Held};

use crate::held::Held;
use crate::loose::Loose;
use std::alloc::{Allocator, Global};
use std::marker::Model;
use std::mem::replace;
use std::ptr::null_mut;

/// A handle: closed, or open on a session. Its bytes are a pointer, which is null in a closed one.
#[repr(C)]
pub struct Handle {
    at: *mut u8,
    alloc: Global,
    ghost value: { Maybe Held },
}

impl Model for Handle {
    ghost use Rattle.hmc_c.specs.Owned.{handle_owns};
    ghost use Rattle.hmc_c.specs.contracts.held.Held.{the_row};

    ghost also_owns = { λ h. handle_owns (⟦<Global as Allocator>⟧.dealloc_token h.alloc) the_row
        h.at h.value };
}

// A closed handle.
fn closed(alloc: Global) -> Handle
    ensures { result.value ≡ None }
{
    let at = null_mut();
    Handle { at, alloc }
}

// The handle of a box that is known by its pointer.
fn closes(loose: Loose<Held, Global>) -> Handle
    ensures { result.value ≡ Some loose.value }
{
    let Loose { at, alloc } = loose;
    Handle {
        at: at as *mut u8,
        alloc,
    }
}

// What a handle has, known by its pointer.
fn opens(handle: Handle) -> Option<Loose<Held, Global>>
    ensures { MatchOption result (handle.value ≡ None) (λ l. handle.value ≡ Some l.value) }
{
    let Handle { at, alloc } = handle;
    if at.is_null() {
        None
    } else {
        Some(Loose {
            at: at as *mut Held,
            alloc,
        })
    }
}

/// Takes out what a handle has; the handle is closed then.
#[inline(always)]
pub(crate) fn taken(alloc: Global, handle: &mut Handle) -> Option<Box<Held>>
    ensures closed { handle.new.value ≡ None }
    ensures value { MatchOption result (handle.old.value ≡ None)
        (λ held. handle.old.value ≡ Some held.value) }
{
    let was = replace(handle, closed(alloc));
    match opens(was) {
        Some(loose) => Some(loose.into_box()),
        None => None,
    }
}

// Drops what was held. It is out of the way of steps, which drop nothing.
#[inline(never)]
fn drop_held(held: Box<Held>) {
    drop(held);
}

// Drops what a handle has.
#[inline(always)]
fn let_go(handle: Handle) {
    match opens(handle) {
        Some(loose) => drop_held(loose.into_box()),
        None => {}
    }
}

/// Puts this into a handle; what was there is dropped.
#[inline(always)]
pub(crate) fn put(handle: &mut Handle, held: Box<Held>)
    ensures { handle.new.value ≡ Some held.value }
{
    let was = replace(handle, closes(Loose::of(held)));
    let_go(was);
}

/// Closes a handle; what was there is dropped.
pub(crate) fn close(alloc: Global, handle: &mut Handle)
    ensures { handle.new.value ≡ None }
{
    let was = replace(handle, closed(alloc));
    let_go(was);
}
