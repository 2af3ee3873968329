//! The case of a number: a chain of 1 to 4 cubes, 200 requests of one host, and rounds with noise
//! and then without. All of it follows from the number, so one word names a large case.
//!
//! [`make`] makes the case, by `specs/Numbered.antt`. [`number_of`] reads the number from a word.
#![tactic(auto)]

mod case;
mod chain;
mod draws;
mod items;
mod plan;
mod request;
mod steps;
mod word;

pub use case::make;
pub use word::number_of;
