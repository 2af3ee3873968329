//! New cubes.

ghost use Rattle.std.specs.Prelude.{◌≤◌, IfOk, length};
ghost use Rattle.hmc_codes.specs.Limits.{most_cubes};
ghost use Rattle.hmc_net.specs.Opening.{AreNewCubes};

use hmc_case::CubeSetup;
use hmc_codes::Memory;
use hmc_cube::Cube;
use std::alloc::Global;

/// Empty cubes with these setups, numbered from 0.
pub fn new_cubes(alloc: Global, setups: &[CubeSetup]) -> Result<Vec<Cube>, Memory>
    requires { length setups.now ≤ most_cubes }
    ensures { IfOk result (λ cubes. AreNewCubes setups.now cubes.items) }
{
    let mut cubes = Vec::with_capacity(alloc, setups.len())?;
    for (i, setup) in setups.iter().enumerate() {
        cubes.push(Cube::new(alloc, i as u8, setup.shape, setup.queue)?)?;
    }
    Ok(cubes)
}
