//! IRTRYs, the flits that steer a link: spelled, recognised, and counted.
//!
//! [`irtry`] spells one and [`irtry_of`] finds one in a flit: `irtry_flit` and `irtry_in` of
//! hmc_packet. Three counters stand for how many flits in a row were of a kind: [`Runs`] for IRTRYs
//! of one kind at a receiver, [`Train`] for a receiver in training, and [`Burst`] for those that a
//! sender still has to send. Layers above see the count, up to the number at which it says all.
#![tactic(auto)]

mod burst;
mod flit;
mod runs;
mod train;

pub use burst::Burst;
pub use flit::{irtry, irtry_of};
pub use hmc_packet::Kind;
pub use runs::{Counted, Runs};
pub use train::{Train, is_training};
