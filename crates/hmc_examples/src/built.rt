//! What a case has, by its parts, and the network that is built of it. The case is that of
//! `sessions/two-vaults.toml`.

ghost use Rattle.std.specs.Prelude.{◌<◌, length};

use crate::begun::{case_of, units};
use crate::orders::Order;
use crate::reading::Contents;
use crate::words::{Fragment, push_all};
use hmc_case::Case;
use hmc_codes::{Join, LinkSetup, Memory, Place, Profile, Shape};
use hmc_net::Net;
use hmc_units::{Shipped, Slots};
use std::alloc::Global;

// Whether a case has that cube, with two vaults of four banks.
fn has_the_cube(case: &Case) -> bool {
    let shape = Shape {
        vault_bits: 1,
        bank_bits: 2,
        rows: 4,
        block: 256,
    };
    matches!(case.cubes(), [cube] if cube.shape == shape && cube.queue == 3)
}

// Whether a case has that link, from host 0 to port 2 of cube 0.
fn has_the_link(case: &Case) -> bool {
    let join = Join {
        a: Place::Host(0),
        b: Place::Port { cube: 0, port: 2 },
    };
    let setup = LinkSetup {
        line: 8,
        tokens: 34,
        retry: 64,
        output: 5,
        profile: Profile::One,
    };
    matches!(case.links(), [link] if link.join == join && link.setup == setup)
}

// Whether a case has one host, two requests, and 22 steps. A round of that cube has 21: give, 2
// sends, 2 landings, a shift, 2 spreads, 8 banks, the registers, 3 lifts and take.
fn has_the_texts(case: &Case) -> bool {
    case.hosts() == 1 && case.script().len() == 2 && case.schedule().len() == 22
}

// Whether nothing has happened in a network. Its cube 0 has 8,192 bytes.
fn is_new(net: &Net<Slots<Shipped>>) -> bool
    requires host { 0 < length net.now.network.hosts }
    requires cube { 0 < length net.now.network.cubes }
{
    let is_idle = net.cube(0).capacity() == 8192 && net.cube(0).held() == 0;
    is_idle && net.journal().is_empty() && net.tags_out(0) == 0 && net.drained()
}

// Whether nothing has happened in the network of a case.
fn is_quiet(alloc: Global, case: &Case) -> Result<bool, Memory> {
    match Net::build(alloc, case, units(alloc)?) {
        Ok(net) => Ok(is_new(&net)),
        Err(memory) => Err(memory),
    }
}

// Whether a case has these parts, and its network has done nothing.
fn has_the_parts(alloc: Global, case: &Case) -> Result<bool, Memory> {
    let is_quiet = is_quiet(alloc, case)?;
    Ok(is_quiet && has_the_cube(case) && has_the_link(case) && has_the_texts(case))
}

// The same of the case of a text.
fn is_as_written(alloc: Global, text: &str) -> Result<bool, Memory> {
    match case_of(alloc, text) {
        Ok(case) => has_the_parts(alloc, &case),
        Err(memory) => Err(memory),
    }
}

/// Appends whether a case is as its file says.
pub fn push_built(
    alloc: Global,
    order: &Order<'_>,
    contents: &Contents,
    into: &mut String,
) -> Result<(), Memory> {
    let word = if is_as_written(alloc, contents.input.as_str())? {
        ": as written\n"
    } else {
        ": differs\n"
    };
    push_all(
        into,
        &[
            Fragment::Text("built of "),
            Fragment::Text(order.name),
            Fragment::Text(word),
        ],
    )?;
    Ok(())
}
