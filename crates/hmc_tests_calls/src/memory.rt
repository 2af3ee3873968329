//! Calls that take memory. No clause says that they give their value where memory is ample, and
//! each is made once so; what the value is, its clauses say.

mod links;
mod parts;
mod requests;

use std::process::Abort;

#[test]
fn each_call_that_takes_memory(rt: HostRuntime) {
    assert!(rt;
        requests::are_made(rt.alloc()),
        "banks, machines, benches, ends and texts"
    );
    assert!(rt;
        links::are_made(rt.alloc()),
        "queues, buffers, senders and links"
    );
    assert!(rt;
        parts::are_made(rt.alloc()),
        "routes, vaults, cubes, journals, lines and hosts"
    );
}
