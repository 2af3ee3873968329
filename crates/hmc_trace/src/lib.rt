//! Traces of loads and stores: the script that performs a trace, and the values of its loads.
//!
//! What a trace means, and the laws that the contracts here rest on, are in hmc_accesses.
#![tactic(auto)]

mod answered;
mod append;
mod compiled;
mod line;
mod loaded_value;
mod meaning;
mod queues;
mod read_bytes;
mod requests;
mod words;

pub use compiled::{Compiled, compile};
pub use hmc_accesses::{
    Load, TraceFault, TraceKind, all_are_loaded, compiled_is_performed, read_is_trace,
    values_are_loaded,
};
pub use line::{bad_line, no_text_line};
pub use loaded_value::{value, values};
