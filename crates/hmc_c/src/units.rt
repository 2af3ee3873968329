//! Logic units by numbers.

ghost use Rattle.std.specs.Prelude.{◌≡◌, Some, IfOk, IfNone, IfSome, false, true, map};
ghost use Rattle.std.specs.List.{list_all};
ghost use Rattle.hmc_units.specs.Kinds.{unit_of};
ghost use Rattle.hmc_units.specs.Slots.{units_in};
ghost use Rattle.hmc_c.specs.Units.{are_units, is_named, slots_of};

use hmc_codes::Memory;
use hmc_units::{Shipped, Slots};
use std::alloc::Global;

/// A logic unit of a shipped kind, that never worked, as C names it.
#[repr(C)]
#[derive(Clone, Copy)]
pub struct UnitIn {
    /// 0 reverses blocks, 1 numbers them.
    pub kind: u8,
    /// Its cube, below 8.
    pub cube: u8,
    /// Which of the commands unit0 to unit7 it does.
    pub code: u8,
}

// The units that these numbers name, if each names one.
fn units_of(alloc: Global, units: &[UnitIn]) -> Result<Option<Vec<Shipped>>, Memory>
    ensures some { IfOk result (λ found. IfSome found (λ made.
        map (λ unit. Some (unit_of unit)) made.items ≡ slots_of units.now)) }
    ensures none { IfOk result (λ found. IfNone found (list_all is_named units.now ≡ false)) }
{
    let mut made = Vec::with_capacity(alloc, units.len())?;
    'named: for unit in units {
        match Shipped::by_numbers(unit.kind, unit.cube, unit.code) {
            Some(shipped) => made.push(shipped)?,
            None => return Ok(None),
        }
    }
    Ok(Some(made))
}

/// A bench of the units that these numbers name, in slots by their places. `None` where there are
/// more than eight, or one names no unit. `Memory` if out of memory.
pub(crate) fn bench_of(alloc: Global, units: &[UnitIn]) -> Result<Option<Slots<Shipped>>, Memory>
    ensures some { IfOk result (λ found. IfSome found (λ bench.
        (are_units units.now ≡ true) × (units_in unit_of bench ≡ slots_of units.now))) }
    ensures none { IfOk result (λ found. IfNone found (are_units units.now ≡ false)) }
{
    if units.len() > 8 {
        return Ok(None);
    }
    match units_of(alloc, units)? {
        Some(made) => Ok(Some(Slots::new(alloc, made)?)),
        None => Ok(None),
    }
}
