//! What cubes show at the end, by their numbers. One that isn't there shows nothing.

ghost use Rattle.std.specs.Prelude.{◌≡◌, ◌≤◌, ◌<◌, ◌+◌, ◌%◌, ◌^◌, length, slice_get, slice_range};
ghost use Rattle.hmc_net.specs.Finished.{memory_of, registers_of};

use hmc_cube::Cube;

const NO_REGISTERS: [u32; 16] = [0; 16];

// The number of bytes of a cube.
fn whole_size(cube: &Cube) -> u64
    ensures size { result ≡ length cube.now.state.memory }
    ensures blocks { result % 16 ≡ 0 }
    ensures most { result ≤ 2 ^ 27 }
{
    cube.invariant();
    cube.capacity()
}

/// The number of bytes of the cube with this number.
pub fn memory_size(cubes: &[Cube], number: u8) -> u64
    ensures size { result ≡ length (memory_of (slice_get cubes.now number)) }
    ensures blocks { result % 16 ≡ 0 }
    ensures most { result ≤ 2 ^ 27 }
{
    match cubes.get(usize::from(number)) {
        Some(cube) => whole_size(cube),
        None => 0,
    }
}

// The 16 bytes of a cube at a multiple of 16.
fn block_in(cube: &Cube, place: u64) -> [u8; 16]
    requires multiple { place % 16 ≡ 0 }
    requires inside { place < length cube.now.state.memory }
    ensures { result ≡ slice_range cube.now.state.memory place (place + 16) }
{
    cube.invariant();
    cube.get16(place)
}

/// The 16 bytes at a multiple of 16 of the cube with this number.
pub fn block_at(cubes: &[Cube], number: u8, place: u64) -> [u8; 16]
    requires multiple { place % 16 ≡ 0 }
    requires inside { place < length (memory_of (slice_get cubes.now number)) }
    ensures { result
        ≡ slice_range (memory_of (slice_get cubes.now number)) place (place + 16) }
{
    match cubes.get(usize::from(number)) {
        Some(cube) => block_in(cube, place),
        None => unreachable!(),
    }
}

// A register of a cube.
fn register_in(cube: &Cube, register: u64) -> Option<u32>
    ensures value { result ≡ slice_get cube.now.state.registers register }
    ensures sixteen { length cube.now.state.registers ≡ 16 }
{
    cube.invariant();
    cube.register(register)
}

// A register of a cube that isn't there.
fn no_register(register: u64) -> Option<u32>
    ensures { result ≡ slice_get NO_REGISTERS register }
{
    NO_REGISTERS.get(register as usize).copied()
}

/// A register of the cube with this number; `None` if there is none of this number.
pub fn register_at(cubes: &[Cube], number: u8, register: u64) -> Option<u32>
    ensures value { result ≡ slice_get (registers_of (slice_get cubes.now number)) register }
    ensures sixteen { length (registers_of (slice_get cubes.now number)) ≡ 16 }
{
    match cubes.get(usize::from(number)) {
        Some(cube) => register_in(cube, register),
        None => no_register(register),
    }
}
