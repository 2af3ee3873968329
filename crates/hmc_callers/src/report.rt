//! A caller of `hmc_report`.

ghost use Rattle.std.specs.Prelude.{◌≡◌, IfOk, string_bytes};
ghost use Rattle.hmc_report.specs.Final.{final_text};

use hmc_codes::Memory;
use hmc_report::{Finished, Part, finish};
use std::alloc::Global;

/// The final lines of a network, from those of tokens on, as one text. `Memory` if out of memory.
pub fn ending_of<N: Finished>(alloc: Global, net: &N) -> Result<String, Memory>
    ensures { IfOk result (λ text.
        string_bytes text ≡ final_text Part.Tokens (N.final_values net.now)) }
{
    let mut text = String::new(alloc);
    finish(alloc, net, Part::Tokens, &mut text)?;
    Ok(text)
}
