//! Why there are no routes.

ghost use Rattle.std.specs.Prelude.{◌≡◌};
ghost use Rattle.hmc_routes.specs.declared.fault.RouteFault.TheVariants as faults;

use std::alloc::{AllocError, AllocFailed};

/// Why there are no routes.
#[derive(Clone, Copy, PartialEq, Eq)]
pub enum RouteFault {
    /// Out of memory.
    Memory,
    /// No walk leads from one cube to another.
    Parted {
        /// The first cube from which one isn't reached.
        from: u8,
        /// The first cube that isn't reached from there.
        to: u8,
    },
}

impl From<AllocError> for RouteFault {
    ghost from_gives = { λ _ fault. fault ≡ faults.Memory };

    fn from(_: AllocError) -> Self {
        RouteFault::Memory
    }
}

impl<T: Drop> From<AllocFailed<T>> for RouteFault {
    ghost from_gives = { λ _ fault. fault ≡ faults.Memory };

    fn from(_: AllocFailed<T>) -> Self {
        RouteFault::Memory
    }
}
