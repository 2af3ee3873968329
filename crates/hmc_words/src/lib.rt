//! The words of one line, taken from its front one after another.
//!
//! [`WordReader`] is what readers of single lines share. Contracts see it as the list of the words
//! that are left. `Takes` says what a call took and what it left, and `>>=` of `specs/Taking.antt`
//! joins steps that may find something else.
#![tactic(auto)]

mod word_reader;

pub use word_reader::WordReader;
