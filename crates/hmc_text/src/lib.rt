//! Texts that are read line by line, and word by word.
//!
//! A text is cut into lines, and a line into words; a word may be a number. [`lines`], [`words`]
//! and [`number`] do that. [`reading`] has the steps of a reader that ends at its first fault, with
//! any kinds of faults, and [`fault`] what it returns then. Readers above cite `lines_of`,
//! `words_of`, `number_of`, the steps of `specs/Reading.antt`, `after_lines` (what the lines of a
//! text make of a state, up to the first fault) and `Answers` (what a reader returns).
#![tactic(auto)]

pub mod fault;
pub mod lines;
pub mod number;
pub mod reading;
pub mod words;
