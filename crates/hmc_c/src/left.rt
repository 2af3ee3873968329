//! What the steps leave: memories, registers, tokens and counts.

ghost use Rattle.std.specs.Prelude.{◌≡◌};
ghost use Rattle.hmc_journal.specs.Final.{values_of};
ghost use Rattle.hmc_c.specs.Shows.{ShowsLeft};
ghost use Rattle.hmc_c.specs.Values.{block_in, counters_in, cube_in, host_in, register_in, tokens_in, values_in};

use crate::counts::{
    CountersOut, CubeOut, HostOut, TokensOut, counters_out, cube_out, host_out, tokens_out,
};
use crate::handle::Handle;
use crate::held::Held;
use crate::showing::show;
use hmc_codes::Flit;
use hmc_report::Finished;
use std::alloc::Global;

// The 16 bytes of a cube at an address, if they are there.
fn find_block(held: &Held, cube: u8, address: u64) -> Option<Flit>
    ensures { result ≡ block_in (values_in held.now) cube address }
{
    let network = held.network();
    if cube >= network.cubes() || address % 16 != 0 || address >= network.capacity(cube) {
        return None;
    }
    Some(network.get16(cube, address))
}

// A register of a cube, if it is there.
fn find_register(held: &Held, cube: u8, number: u8) -> Option<u32>
    ensures { result ≡ register_in (values_in held.now) cube number }
{
    let network = held.network();
    if cube >= network.cubes() {
        return None;
    }
    network.register(cube, u64::from(number))
}

// The tokens of a direction, if it is there.
fn find_tokens(held: &Held, direction: u8) -> Option<TokensOut>
    ensures { result ≡ tokens_in (values_in held.now) direction }
{
    let network = held.network();
    if direction >= network.directions() {
        return None;
    }
    Some(tokens_out(&Finished::tokens(network, direction)))
}

// The counts of a direction, if it is there.
fn find_counters(held: &Held, direction: u8) -> Option<CountersOut>
    ensures { result ≡ counters_in (values_in held.now) direction }
{
    let network = held.network();
    if direction >= network.directions() {
        return None;
    }
    Some(counters_out(&network.counters(direction)))
}

// The counts of a host, if it is there.
fn find_host(held: &Held, host: u8) -> Option<HostOut>
    ensures { result ≡ host_in (values_in held.now) host }
{
    let network = held.network();
    if host >= network.hosts() {
        return None;
    }
    Some(host_out(&network.host_counts(host)))
}

// The counts of a cube, if it is there.
fn find_cube(held: &Held, cube: u8) -> Option<CubeOut>
    ensures { result ≡ cube_in (values_in held.now) cube }
{
    let network = held.network();
    if cube >= network.cubes() {
        return None;
    }
    Some(cube_out(&network.cube_counts(cube)))
}

/// Shows the 16 bytes of a cube's memory at an address, a multiple of 16.
///
/// 0: they are shown. 8: there is no such cube, or its memory has no such address. 9: the handle is
/// closed. 11: a landing passed. With 8 to 11 nothing is written.
#[unsafe(no_mangle)]
pub extern "C" fn hmc_block(
    alloc: Global,
    handle: &mut Handle,
    cube: u8,
    address: u64,
    out: &mut Flit,
) -> u8
    ensures { ShowsLeft (λ setup past. block_in (values_of setup past) cube address) result
        handle.old.value handle.new.value out.old out.new }
{
    with_held!(alloc, handle, |held| {
        show(&held, find_block(&held, cube, address), out)
    })
}

/// Shows the tokens of a direction: link i has the directions 2i and 2i + 1.
///
/// 0: they are shown. 8: there is no such direction. 9: the handle is closed. 11: a landing passed.
/// With 8 to 11 nothing is written.
#[unsafe(no_mangle)]
pub extern "C" fn hmc_tokens(
    alloc: Global,
    handle: &mut Handle,
    direction: u8,
    out: &mut TokensOut,
) -> u8
    ensures { ShowsLeft (λ setup past. tokens_in (values_of setup past) direction) result
        handle.old.value handle.new.value out.old out.new }
{
    with_held!(alloc, handle, |held| {
        show(&held, find_tokens(&held, direction), out)
    })
}

/// Shows the counts of a host.
///
/// 0: they are shown. 8: there is no such host. 9: the handle is closed. 11: a landing passed. With
/// 8 to 11 nothing is written.
#[unsafe(no_mangle)]
pub extern "C" fn hmc_host(alloc: Global, handle: &mut Handle, host: u8, out: &mut HostOut) -> u8
    ensures { ShowsLeft (λ setup past. host_in (values_of setup past) host) result
        handle.old.value handle.new.value out.old out.new }
{
    with_held!(alloc, handle, |held| {
        show(&held, find_host(&held, host), out)
    })
}

/// Shows the counts of a cube.
///
/// 0: they are shown. 8: there is no such cube. 9: the handle is closed. 11: a landing passed. With
/// 8 to 11 nothing is written.
#[unsafe(no_mangle)]
pub extern "C" fn hmc_cube(alloc: Global, handle: &mut Handle, cube: u8, out: &mut CubeOut) -> u8
    ensures { ShowsLeft (λ setup past. cube_in (values_of setup past) cube) result
        handle.old.value handle.new.value out.old out.new }
{
    with_held!(alloc, handle, |held| {
        show(&held, find_cube(&held, cube), out)
    })
}

/// Shows the counts of a direction: link i has the directions 2i and 2i + 1.
///
/// 0: they are shown. 8: there is no such direction. 9: the handle is closed. 11: a landing passed.
/// With 8 to 11 nothing is written.
#[unsafe(no_mangle)]
pub extern "C" fn hmc_counters(
    alloc: Global,
    handle: &mut Handle,
    direction: u8,
    out: &mut CountersOut,
) -> u8
    ensures { ShowsLeft (λ setup past. counters_in (values_of setup past) direction) result
        handle.old.value handle.new.value out.old out.new }
{
    with_held!(alloc, handle, |held| {
        show(&held, find_counters(&held, direction), out)
    })
}

/// Shows a register of a cube, 0 to 15.
///
/// 0: it is shown. 8: there is no such cube or register. 9: the handle is closed. 11: a landing
/// passed. With 8 to 11 nothing is written.
#[unsafe(no_mangle)]
pub extern "C" fn hmc_register(
    alloc: Global,
    handle: &mut Handle,
    cube: u8,
    number: u8,
    out: &mut u32,
) -> u8
    ensures { ShowsLeft (λ setup past. register_in (values_of setup past) cube number) result
        handle.old.value handle.new.value out.old out.new }
{
    with_held!(alloc, handle, |held| {
        show(&held, find_register(&held, cube, number), out)
    })
}
