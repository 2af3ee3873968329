//! Cubes.

ghost use Rattle.std.specs.Prelude.{◌≡◌, ◌≤◌, ◌<◌, ◌^◌, ◌==◌, ◌||◌, true, vec_len, IfOk, OnOk};
ghost use Rattle.std.specs.List.{All};
ghost use Rattle.toml.specs.View.{view, table_view, array_view};
ghost use Rattle.hmc_codes.specs.Limits.{most_cubes};
ghost use Rattle.hmc_codes.specs.Shape.{is_block};
ghost use Rattle.hmc_case.specs.Reading.{Answers, Gains};
ghost use Rattle.hmc_case.specs.Cubes.{block_of, cube_setup_of, next_cube, cubes_of};
ghost use Rattle.hmc_case.specs.Setup.{IsCubeSetup};

use crate::fault::{in_section, refuse_unless};
use crate::keys::{Part, number_at, table_of};
use crate::rows::append;
use crate::{CaseFault, CaseKind, CubeSetup, Section};
use hmc_codes::{
    MOST_BANK_BITS, MOST_BLOCK, MOST_QUEUE, MOST_ROWS, MOST_VAULT_BITS, Profile, Shape,
};
use std::alloc::Global;
use toml::value::Array;
use toml::{Table, Value};

fn is_block(bytes: u16) -> bool
    ensures { result ≡ is_block bytes }
{
    bytes == 32 || bytes == 64 || bytes == 128 || bytes == 256
}

// The bytes of a cube's block.
#[tactic(auto, unfolding(crate::specs::Cubes::block_of))]
fn block_of(profile: Profile, table: &Table) -> Result<u16, CaseKind>
    ensures value { result ≡ block_of profile (table_view table.now) }
    ensures allowed { IfOk result (λ block. is_block block ≡ true) }
{
    match profile {
        Profile::One => Ok(MOST_BLOCK),
        Profile::Two => {
            let block = number_at("block", 0, MOST_BLOCK, table)?;
            refuse_unless(is_block(block), CaseKind::Range)?;
            Ok(block)
        }
    }
}

// A cube's table.
#[tactic(auto, unfolding(crate::specs::Cubes::cube_setup_of))]
fn cube_setup_of(profile: Profile, value: &Value) -> Result<CubeSetup, CaseKind>
    ensures value { result ≡ cube_setup_of profile (view value.now) }
    ensures within { IfOk result IsCubeSetup }
{
    let table = table_of(Part::Cube(profile), value)?;
    let vault_bits = number_at("vault_bits", 0, u16::from(MOST_VAULT_BITS), table)? as u8;
    let bank_bits = number_at("bank_bits", 0, u16::from(MOST_BANK_BITS), table)? as u8;
    let rows = number_at("rows", 1, MOST_ROWS, table)?;
    let queue = number_at("queue", 1, u16::from(MOST_QUEUE), table)? as u8;
    let block = block_of(profile, table)?;
    Ok(CubeSetup {
        shape: Shape {
            vault_bits,
            bank_bits,
            rows,
            block,
        },
        queue,
    })
}

// Reads the next cube.
fn read_cube(profile: Profile, cubes: &mut Vec<CubeSetup>, value: &Value) -> Result<(), CaseFault>
    requires { vec_len cubes.old < 2 ^ 32 }
    ensures value { Gains cubes.old.items cubes.new.items result
        (next_cube profile cubes.old.items (view value.now)) }
    ensures within { All IsCubeSetup cubes.old.items
        → OnOk result (All IsCubeSetup cubes.new.items) }
{
    let number = cubes.len() as u32;
    let cube = in_section(Section::Cube, number, cube_setup_of(profile, value))?;
    append(cubes, cube)?;
    Ok(())
}

/// The cubes of a case of this profile.
pub fn cubes_of(
    alloc: Global,
    profile: Profile,
    values: &Array,
) -> Result<Vec<CubeSetup>, CaseFault>
    requires { vec_len values.now ≤ most_cubes }
    ensures value { Answers (λ cubes. cubes.items) result
        (cubes_of profile (array_view values.now)) }
    ensures within { IfOk result (λ cubes. All IsCubeSetup cubes.items) }
    ensures count { IfOk result (λ cubes. vec_len cubes ≡ vec_len values.now) }
{
    let mut cubes = Vec::new(alloc);
    'values: for value in values {
        if let Err(fault) = read_cube(profile, &mut cubes, value) {
            return Err(fault);
        }
    }
    Ok(cubes)
}
