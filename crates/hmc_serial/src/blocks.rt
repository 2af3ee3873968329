//! Bytes of a memory, in pieces of 16.

ghost use Rattle.std.specs.Prelude.{◌≡◌, ◌<◌, ◌≤◌, ◌+◌, ◌%◌, ◌^◌, ◌↔◌, false, IsNone, IfNone, IfSome, length, slice_range};
ghost use Rattle.std.specs.List.{list_any};
ghost use Rattle.hmc_codes.specs.Bytes.{padded_bytes};
ghost use Rattle.hmc_codes.specs.Shape.{capacity_of};
ghost use Rattle.hmc_memory.specs.Banks.{written_bytes};
ghost use Rattle.hmc_units.specs.Bench.{serves, bench_acted, worked_slots};
ghost use Rattle.hmc_serial.specs.Perform.{acted_at, block_at, block_start};

use hmc_atomics::{Atomic, act};
use hmc_codes::{Acted, PIECE, Payload, Request};
use hmc_memory::Banks;
use hmc_units::Workbench;

/// The bytes at an address.
pub fn read(banks: &Banks, address: u64, size: usize) -> Payload
    requires low { address < 2 ^ 34 }
    requires multiple { address % 16 ≡ 0 }
    requires blocks { size % 16 ≡ 0 }
    requires few { size ≤ 256 }
    requires inside { address + size ≤ capacity_of banks.now.shape }
    ensures { result ≡ slice_range banks.now.bytes address (address + size) }
{
    let mut bytes = [0; 256];
    for i in 0..size / PIECE {
        let from = PIECE * i;
        bytes[from..from + PIECE].copy_from_slice(&banks.get16(address + from as u64));
    }
    Payload::from_slice(&bytes[..size]).unwrap()
}

/// Writes bytes at an address.
pub fn write(banks: &mut Banks, address: u64, bytes: &[u8])
    requires low { address < 2 ^ 34 }
    requires multiple { address % 16 ≡ 0 }
    requires blocks { length bytes.now % 16 ≡ 0 }
    requires inside { address + length bytes.now ≤ capacity_of banks.old.shape }
    ensures shape { banks.new.shape ≡ banks.old.shape }
    ensures bytes { banks.new.bytes ≡ written_bytes banks.old.bytes address bytes.now }
{
    banks.invariant();
    for i in 0..bytes.len() / PIECE {
        let from = PIECE * i;
        let mut piece = [0; PIECE];
        piece.copy_from_slice(&bytes[from..from + PIECE]);
        banks.put16(address + from as u64, piece);
    }
}

// The operand of a command: its payload, or zeros.
fn operand(payload: &[u8]) -> [u8; 16]
    requires { length payload.now ≤ 16 }
    ensures { result ≡ padded_bytes 16 payload.now }
{
    let mut operand = [0; PIECE];
    operand[..payload.len()].copy_from_slice(payload);
    operand
}

/// Performs an operation on the block that holds an address.
pub fn act_at(op: Atomic, banks: &mut Banks, address: u64, payload: &[u8]) -> Acted
    requires short { length payload.now ≤ 16 }
    requires inside { address < capacity_of banks.old.shape }
    ensures shape { banks.new.shape ≡ banks.old.shape }
    ensures acted { result ≡ acted_at op banks.old.bytes address payload.now }
    ensures bytes { banks.new.bytes ≡
        written_bytes banks.old.bytes (block_start address) result.block }
{
    let start = address - address % 16;
    let high = address / 8 % 2 != 0;
    let acted = act(op, high, banks.get16(start), operand(payload));
    banks.put16(start, acted.block);
    acted
}

/// The unit of the request's cube with this code works on the block that holds the address. `None`
/// exactly where no live unit is one, and then nothing changes.
pub fn work_at<B: Workbench>(
    bench: &mut B,
    code: u8,
    banks: &mut Banks,
    request: &Request,
) -> Option<Acted>
    requires short { length request.now.payload ≤ 16 }
    requires inside { request.now.address < capacity_of banks.old.shape }
    ensures shape { banks.new.shape ≡ banks.old.shape }
    ensures acted { result ≡ bench_acted (B.slots bench.old) request.now.cube code
        (block_at banks.old.bytes request.now.address) (padded_bytes 16 request.now.payload) }
    ensures slots { B.slots bench.new ≡ worked_slots (B.slots bench.old) request.now.cube code
        (block_at banks.old.bytes request.now.address) (padded_bytes 16 request.now.payload) }
    ensures some { IfSome result (λ acted. banks.new.bytes
        ≡ written_bytes banks.old.bytes (block_start request.now.address) acted.block) }
    ensures none { IsNone result
        ↔ (list_any (serves request.now.cube code) (B.slots bench.old) ≡ false) }
    ensures unchanged { IfNone result ((banks.new.bytes ≡ banks.old.bytes)
        × (B.slots bench.new ≡ B.slots bench.old)) }
{
    let start = request.address - request.address % 16;
    let operand = operand(request.payload.as_slice());
    let worked = bench.work(request.cube, code, banks.get16(start), operand)?;
    banks.put16(start, worked.block);
    Some(worked)
}
