//! What links need.

use hmc_codes::{LinkSetup, Memory, Profile};
use hmc_link::Link;
use hmc_retry::RetryBuffer;
use hmc_send::Sender;
use hmc_tokens::{FlitBuffer, Queue};
use std::alloc::Global;

// The greatest setup.
const GREATEST: LinkSetup = LinkSetup {
    line: 64,
    tokens: 1024,
    retry: 1024,
    output: 64,
    profile: Profile::Two,
};

fn new_link(alloc: Global) -> Result<Link<FlitBuffer, FlitBuffer>, Memory> {
    let a = FlitBuffer::new(alloc, GREATEST.tokens)?;
    let b = FlitBuffer::new(alloc, GREATEST.tokens)?;
    Link::new(alloc, GREATEST, a, b)
}

/// Whether a queue, a retry buffer, a sender and a link are made.
pub fn are_made(alloc: Global) -> bool {
    Queue::new(alloc, 64).is_ok()
        && RetryBuffer::new(alloc, 1024, Profile::Two).is_ok()
        && Sender::new(alloc, 1024, Profile::Two).is_ok()
        && new_link(alloc).is_ok()
}
