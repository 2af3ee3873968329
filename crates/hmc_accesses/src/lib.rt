//! Loads and stores of bytes: a trace of them, the requests that perform it, and the laws of the
//! values that its loads have.
//!
//! `Trace` (specs/Trace) is what a trace means over plain bytes, and `compiled_of` (specs/Compiled)
//! its script. The laws say that the script does what the trace means, on a plain machine and by
//! every lawful journal. The code that compiles traces is in hmc_trace.
#![tactic(auto)]

mod fault;
mod laws;
mod load;
mod span;

pub use fault::{TraceFault, TraceKind};
pub use laws::{all_are_loaded, compiled_is_performed, read_is_trace, values_are_loaded};
pub use load::Load;
pub use span::Span;
