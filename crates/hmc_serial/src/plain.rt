//! A plain machine of several cubes.

ghost use Rattle.std.specs.Prelude.{◌≡◌, ◌<◌, ◌≤◌, ◌+◌, ◌%◌, List, Option, IfOk, length, slice_get, slice_range};
ghost use Rattle.hmc_codes.specs.Limits.{most_cubes};
ghost use Rattle.hmc_codes.specs.Shape.{capacity_of};
ghost use Rattle.hmc_units.specs.Unit.{UnitFields};
ghost use Rattle.hmc_serial.specs.Cube.{IsCube, opening};
ghost use Rattle.hmc_serial.specs.Perform.{perform_on};
ghost use Rattle.hmc_serial.specs.Machine.{answer_to, apply, cube_in, machine_of, openings_from, IsMachine};

use crate::perform;
use hmc_codes::{Answer, Memory, Request, Shape};
use hmc_memory::Banks;
use hmc_registers::Registers;
use hmc_units::Workbench;
use std::alloc::Global;
use std::marker::Model;

// One cube.
#[derive(Drop)]
struct Cube {
    banks: Banks,
    registers: Registers,
}

impl Model for Cube {
    ghost use Rattle.hmc_serial.specs.Cube.{CubeState, cube_state_of};

    ghost Value = { CubeState };

    ghost view = { λ c. cube_state_of c.banks c.registers };
}

impl Cube {
    #[tactic(auto, unfolding(crate::specs::Cube::opening))]
    fn new(alloc: Global, number: u8, shape: Shape) -> Result<Self, Memory>
        ensures { IfOk result (λ cube. cube ≡ opening shape number) }
    {
        let registers = Registers::new(number, shape);
        let banks = Banks::new(alloc, shape)?;
        Ok(Cube { banks, registers })
    }

    // Does nothing. Its contract is what every cube keeps.
    fn invariant(&self)
        ensures { IsCube self.now }
    {
        self.banks.invariant();
        self.registers.invariant();
    }

    fn perform<B: Workbench>(&mut self, request: &Request, bench: &mut B) -> Answer
        ensures cube { self.new ≡ (perform_on self.old (B.slots bench.old) request.now).cube }
        ensures slots { B.slots bench.new
            ≡ (perform_on self.old (B.slots bench.old) request.now).slots }
        ensures answer { result ≡ (perform_on self.old (B.slots bench.old) request.now).answer }
    {
        perform(&mut self.banks, &mut self.registers, bench, request)
    }
}

/// A machine without a network: its cube performs each request at once. The caller keeps the logic
/// units, on a bench. Contracts see the list of the cubes.
#[derive(Drop)]
pub struct Plain {
    cubes: Vec<Cube>,
}

impl Model for Plain {
    ghost use Rattle.std.specs.Prelude.{List, []};
    ghost use Rattle.hmc_serial.specs.Cube.{CubeState};
    ghost use Rattle.hmc_serial.specs.Machine.{machine_of, IsMachine};

    ghost Value = { List CubeState };

    ghost view = { λ p. p.cubes.items };

    ghost invariant = { λ p. IsMachine (machine_of p.cubes.items []) };
}

impl Plain {
    /// A machine of 1 to 8 cubes of these shapes, numbered from 0. All their bytes are zero.
    /// `Memory` if out of memory.
    pub fn new(alloc: Global, shapes: &[Shape]) -> Result<Self, Memory>
        requires some { 1 ≤ length shapes.now }
        requires few { length shapes.now ≤ most_cubes }
        ensures { IfOk result (λ plain. plain ≡ openings_from 0 shapes.now) }
    {
        let mut cubes = Vec::with_capacity(alloc, shapes.len())?;
        for (number, shape) in shapes.iter().enumerate() {
            let cube = Cube::new(alloc, number as u8, *shape)?;
            cube.invariant();
            cubes.push(cube)?;
        }
        Ok(Plain { cubes })
    }

    /// The number of cubes.
    pub fn cubes(&self) -> usize
        ensures count { result ≡ length self.now }
        ensures machine { (slots : List (Option UnitFields)) →
            IsMachine (machine_of self.now slots) }
    {
        self.cubes.len()
    }

    /// Performs a request with the logic units of a bench, and returns its answer. Only a unit
    /// command asks the bench.
    pub fn apply<B: Workbench>(&mut self, request: &Request, bench: &mut B) -> Answer
        requires { request.now.cube < length self.old }
        ensures state { machine_of self.new (B.slots bench.new)
            ≡ apply (machine_of self.old (B.slots bench.old)) request.now }
        ensures answer { result ≡ answer_to (machine_of self.old (B.slots bench.old)) request.now }
        ensures machine { IsMachine (machine_of self.old (B.slots bench.old)) }
    {
        let cube = &mut self.cubes[usize::from(request.cube)];
        let answer = cube.perform(request, bench);
        cube.invariant();
        answer
    }

    /// The number of bytes of a cube.
    pub fn capacity(&self, cube: u8) -> u64
        requires { cube < length self.now }
        ensures { result ≡ capacity_of (cube_in self.now cube).shape }
    {
        let cube = &self.cubes[usize::from(cube)];
        cube.banks.shape().capacity()
    }

    /// The 16 bytes of a cube at a multiple of 16.
    pub fn get16(&self, cube: u8, place: u64) -> [u8; 16]
        requires there { cube < length self.now }
        requires multiple { place % 16 ≡ 0 }
        requires inside { place < capacity_of (cube_in self.now cube).shape }
        ensures { result ≡ slice_range (cube_in self.now cube).memory place (place + 16) }
    {
        let cube = &self.cubes[usize::from(cube)];
        cube.banks.get16(place)
    }

    /// The value of a cube's register, or `None` if there is none with this number.
    pub fn register(&self, cube: u8, number: u64) -> Option<u32>
        requires { cube < length self.now }
        ensures { result ≡ slice_get (cube_in self.now cube).registers number }
    {
        let cube = &self.cubes[usize::from(cube)];
        cube.registers.read(number)
    }
}
