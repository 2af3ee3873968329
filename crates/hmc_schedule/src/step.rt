//! The steps of a schedule.

use hmc_codes::{Flit, Lift};

/// A step: one thing that one part of a network does. Hosts, directions, cubes, ports, vaults and
/// banks go by their numbers, from 0.
#[derive(Clone, Copy, PartialEq, Eq)]
pub enum Step {
    /// This host gives its next request to its link.
    Give(u8),
    /// A flit is sent in this direction.
    Send(u8),
    /// The next flit of this direction lands, with the bits of the mask inverted.
    Land(u8, Flit),
    /// The front packet of a port's buffer goes on: a cube and its port.
    Shift(u8, u8),
    /// The front request of a vault goes to its bank: a cube and its vault.
    Spread(u8, u8),
    /// A bank executes its front request: a cube, its vault and that vault's bank.
    Bank(u8, u8, u8),
    /// The registers of this cube execute their front request.
    Registers(u8),
    /// An answer is lifted to a port: a cube and the queue of answers.
    Lift(u8, Lift),
    /// This host takes an answer from its link.
    Take(u8),
    /// A packet that still arrives goes on: a cube and the port at which it arrives.
    Through(u8, u8),
    /// The receiver of this direction loses its framing.
    Unlock(u8),
    /// The logic unit in this slot, below 8, is retired.
    Retire(u8),
}

/// Acts on a step: `act!(self, step)` is `self.give(host)` where the step is a give, and so on. The
/// step is borrowed; whoever calls it imports [`Step`] and has a function for each kind.
#[macro_export]
macro_rules! act {
    ($part:expr, $step:expr) => {
        match $step {
            Step::Give(host) => $part.give(*host),
            Step::Send(direction) => $part.send(*direction),
            Step::Land(direction, mask) => $part.land(*direction, mask),
            Step::Shift(cube, port) => $part.shift(*cube, *port),
            Step::Spread(cube, vault) => $part.spread(*cube, *vault),
            Step::Bank(cube, vault, bank) => $part.bank(*cube, *vault, *bank),
            Step::Registers(cube) => $part.registers(*cube),
            Step::Lift(cube, from) => $part.lift(*cube, *from),
            Step::Take(host) => $part.take(*host),
            Step::Unlock(direction) => $part.unlock(*direction),
            Step::Through(cube, port) => $part.through(*cube, *port),
            Step::Retire(slot) => $part.retire(*slot),
        }
    };
}
