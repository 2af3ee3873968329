//! What is judged: a case, and a log of what its hosts saw.
#![tactic(auto)]

mod fault;
mod laws;
mod subject;

pub use fault::SubjectFault;
pub use laws::read_logs_fit;
pub use subject::Subject;
