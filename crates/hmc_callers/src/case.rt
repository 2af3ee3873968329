//! A caller of `hmc_case`.

ghost use Rattle.std.specs.Prelude.{◌↔◌, IfOk, IsOk, IsTrue};
ghost use Rattle.hmc_case.specs.Case.{case_of};

use hmc_case::{Case, CaseFault};
use hmc_codes::Memory;
use std::alloc::Global;

/// Whether some bytes are a case. `Memory` if out of memory.
pub fn is_case(alloc: Global, bytes: &[u8]) -> Result<bool, Memory>
    ensures { IfOk result (λ yes. IsTrue yes ↔ IsOk (case_of bytes.now)) }
{
    match Case::read(alloc, bytes) {
        Ok(_) => Ok(true),
        Err(CaseFault::Bad { .. }) => Ok(false),
        Err(CaseFault::Memory) => Err(Memory),
    }
}
