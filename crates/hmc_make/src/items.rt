//! The script.

ghost use Rattle.std.specs.Prelude.{◌≡◌, ◌≤◌, IfOk};
ghost use Rattle.std.specs.List.{All};
ghost use Rattle.hmc_script.specs.Items.{IsWithin};
ghost use Rattle.hmc_make.specs.Requests.{items_from};

use crate::draws::Draws;
use crate::request::draw_request;
use hmc_codes::Memory;
use hmc_script::Script;
use std::alloc::Global;

// The requests of a script.
const REQUESTS: u32 = 200;

/// The script of 200 requests of host 0 to one of 1 to 4 cubes each, drawn from the number on.
pub fn script_of(alloc: Global, number: u64, cubes: u8) -> Result<Script, Memory>
    requires some { 1 ≤ cubes }
    requires few { cubes ≤ 4 }
    ensures items { IfOk result (λ script. script ≡ items_from 200 cubes number) }
    ensures within { IfOk result (λ script. All (IsWithin 1 cubes) script) }
{
    let mut draws = Draws { state: number };
    let mut script = Script::new(alloc);
    'requests: for _request in 0..REQUESTS {
        let request = draw_request(&mut draws, cubes);
        if let Err(memory) = script.add(0, false, request) {
            return Err(memory);
        }
    }
    Ok(script)
}
