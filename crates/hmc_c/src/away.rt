//! What is on its way.

ghost use Rattle.std.specs.Prelude.{Some};
ghost use Rattle.hmc_bound.specs.Bound.{drain_bound};
ghost use Rattle.hmc_journal.specs.Drained.{is_drained};
ghost use Rattle.hmc_journal.specs.UnderWay.{under_way};
ghost use Rattle.hmc_c.specs.Shows.{ShowsLeft};

use crate::handle::Handle;
use crate::showing::show;
use std::alloc::Global;

/// Shows whether nothing is on its way.
///
/// 0: it is shown. 9: the handle is closed. 11: a landing passed. With 9 and 11 nothing is written.
#[unsafe(no_mangle)]
pub extern "C" fn hmc_drained(alloc: Global, handle: &mut Handle, out: &mut bool) -> u8
    ensures { ShowsLeft (λ setup past. Some (is_drained setup.topology past)) result
        handle.old.value handle.new.value out.old out.new }
{
    with_held!(alloc, handle, |held| {
        show(&held, Some(held.network().drained()), out)
    })
}

/// Shows how many requests and responses are under way.
///
/// 0: it is shown. 9: the handle is closed. 11: a landing passed. With 9 and 11 nothing is written.
#[unsafe(no_mangle)]
pub extern "C" fn hmc_under_way(alloc: Global, handle: &mut Handle, out: &mut u32) -> u8
    ensures { ShowsLeft (λ setup past. Some (under_way setup.topology past)) result
        handle.old.value handle.new.value out.old out.new }
{
    with_held!(alloc, handle, |held| {
        show(&held, Some(held.network().under_way()), out)
    })
}

/// Shows a number of whole rounds without noise that drain a network of one cube and one link. Of
/// another network the number says nothing.
///
/// 0: it is shown. 9: the handle is closed. 11: a landing passed. With 9 and 11 nothing is written.
#[unsafe(no_mangle)]
pub extern "C" fn hmc_drain_bound(alloc: Global, handle: &mut Handle, out: &mut u64) -> u8
    ensures { ShowsLeft (λ setup past. Some (drain_bound setup.topology past)) result
        handle.old.value handle.new.value out.old out.new }
{
    with_held!(alloc, handle, |held| {
        show(&held, Some(held.network().drain_bound()), out)
    })
}
